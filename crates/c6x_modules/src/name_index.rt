ghost use Rattle.std.specs.Prelude.{◌≡◌, ◌^◌, ◌%◌, ◌<◌, ◌≤◌, ◌∷◌, ◌++◌, [], ◌==◌, List, ℕ, IfOk, OnOk, length, replicate, slice_index_or, if◌then◌else◌};
ghost use Rattle.std.specs.List.{slice_get};
ghost use Rattle.c6x_elf.specs.Names.{hash_of};
ghost use Rattle.c6x_module.specs.Lookups.{export_from};
ghost use Rattle.c6x_modules.specs.Indexed.{first_named, is_in, is_named, IsIndex};

use c6x_base::Row;
use c6x_elf::hash;
use c6x_module::DynSymbol;
use std::alloc::{AllocError, Global};

/// The numbers of a module's exports, in as many buckets as there are symbols, by the hash of their names.
#[derive(Debug, Drop)]
pub struct NameIndex {
    pub buckets: Vec<Row<u32>>,
}

/// The index of a module's symbols.
pub fn make_index(alloc: Global, symbols: &[DynSymbol]) -> Result<NameIndex, AllocError>
    requires { length symbols.now < 2 ^ 32 }
    ensures { IfOk result (λ index. IsIndex index.buckets.items symbols.now) }
{
    let mut buckets = empty_rows(alloc, symbols.len().max(1))?;
    fill(&mut buckets, symbols)?;
    Ok(NameIndex { buckets })
}

/// So many empty rows.
fn empty_rows(alloc: Global, count: usize) -> Result<Vec<Row<u32>>, AllocError>
    ensures { IfOk result (λ rows. rows.items ≡ replicate count []) }
{
    let mut rows = Vec::new(alloc);
    for i in 0..count {
        rows.push(Row::new(alloc))?;
    }
    Ok(rows)
}

/// Puts the number of every export into its bucket.
fn fill(buckets: &mut [Row<u32>], symbols: &[DynSymbol]) -> Result<(), AllocError>
    requires some { 1 ≤ length buckets.old }
    requires empty { buckets.old ≡ replicate (length buckets.old) [] }
    requires few { length symbols.now < 2 ^ 32 }
    ensures { OnOk result (IsIndex buckets.new symbols.now) }
{
    for (number, symbol) in symbols.iter().enumerate() {
        put(buckets, number as u32, symbol)?;
    }
    Ok(())
}

/// Puts a number into its bucket if it is that of an export.
#[tactic(auto, unfolding(crate::specs::Indexed::is_in))]
fn put(buckets: &mut [Row<u32>], number: u32, symbol: &DynSymbol) -> Result<(), AllocError>
    requires { 1 ≤ length buckets.old }
    ensures size { length buckets.new ≡ length buckets.old }
    ensures rows { OnOk result ((b : ℕ) (d : List ℕ) → b < length buckets.old → slice_index_or buckets.new b d ≡ (if is_in (length buckets.old) b symbol.now then slice_index_or buckets.old b d ++ number ∷ [] else slice_index_or buckets.old b d)) }
{
    if !symbol.is_export() {
        return Ok(());
    }
    let bucket = hash(symbol.name.as_bytes()) as usize % buckets.len();
    buckets[bucket].push(number)
}

impl NameIndex {
    /// The lowest number of an export of this name.
    #[tactic(auto, using(crate::proofs::Indexes::first_is_export))]
    pub fn find(&self, symbols: &[DynSymbol], name: &[u8]) -> Option<u32>
        requires { IsIndex self.now.buckets.items symbols.now }
        ensures { result ≡ export_from name.now 0 symbols.now }
    {
        let bucket = hash(name) as usize % self.buckets.len();
        first_named(self.buckets[bucket].as_slice(), symbols, name)
    }
}

/// The first of these numbers whose symbol has the name.
#[tactic(auto, using(crate::proofs::Indexes::named_more))]
fn first_named(numbers: &[u32], symbols: &[DynSymbol], name: &[u8]) -> Option<u32>
    ensures { result ≡ first_named symbols.now name.now numbers.now }
{
    for number in numbers {
        if is_named(symbols, *number, name) {
            return Some(*number);
        }
    }
    None
}

/// The symbol with this number has the name.
fn is_named(symbols: &[DynSymbol], number: u32, name: &[u8]) -> bool
    ensures { result ≡ is_named name.now (slice_get symbols.now number) }
{
    match symbols.get(number as usize) {
        Some(symbol) => symbol.name.as_bytes() == name,
        None => false,
    }
}
