ghost use Rattle.std.specs.Prelude.{◌≡◌, ◌+◌, ◌≤◌, ◌^◌, false, IfOk, length};
ghost use Rattle.c6x_elf.specs.Rows.{word_row};
ghost use Rattle.c6x_layout.specs.Hash.{buckets_of, chains_of, hash_words};
ghost use Rattle.c6x_layout.specs.Tables.{shared_names};

use crate::shared::Shared;
use c6x_elf::{hash, put_words};
use std::alloc::{AllocError, Global};

/// The buckets and the chains of a hash table.
#[derive(Debug, Drop)]
struct HashTable {
    buckets: Vec<u32>,
    chains: Vec<u32>,
}

/// The hash table of these symbols, the first of which is number 3. It is filled from the last symbol to the first, so
/// that each one is put in front of its bucket's chain.
#[tactic(auto, using(crate::proofs::Backward::none_back))]
fn hash_table(alloc: Global, shared: &[Shared]) -> Result<HashTable, AllocError>
    requires { length shared.now ≤ 2 ^ 20 }
    ensures buckets { IfOk result (λ t. t.buckets.items ≡ buckets_of (length shared.now + 3) (shared_names shared.now)) }
    ensures chains { IfOk result (λ t. t.chains.items ≡ chains_of (length shared.now + 3) (shared_names shared.now)) }
{
    let count = shared.len() + 3;
    let mut buckets = vec![in alloc; 0u32; count]?;
    let mut chains = vec![in alloc; 0u32; count]?;
    for back in 0..shared.len() {
        let i = shared.len() - 1 - back;
        let bucket = hash(shared[i].name.as_bytes()) as usize % count;
        chains[i + 3] = buckets[bucket];
        buckets[bucket] = (i + 3) as u32;
    }
    Ok(HashTable { buckets, chains })
}

/// The bytes of the hash table of these symbols.
#[tactic(auto, unfolding(crate::specs::Hash::hash_words), using(crate::proofs::Backward::names_count, crate::proofs::Backward::four_rows))]
pub fn hash_bytes(alloc: Global, shared: &[Shared]) -> Result<Vec<u8>, AllocError>
    requires { length shared.now ≤ 2 ^ 20 }
    ensures { IfOk result (λ bytes. bytes.items ≡ word_row false (hash_words (shared_names shared.now))) }
{
    let table = hash_table(alloc, shared)?;
    let count = shared.len() as u32 + 3;
    let mut bytes = Vec::new(alloc);
    put_words(&mut bytes, false, &[count, count])?;
    put_words(&mut bytes, false, &table.buckets)?;
    put_words(&mut bytes, false, &table.chains)?;
    Ok(bytes)
}
