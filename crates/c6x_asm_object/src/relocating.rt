ghost use Rattle.std.specs.Prelude.{◌≡◌, ℕ, ◌^◌, ◌<◌, IfOk, slice_index};
ghost use Rattle.c6x_asm_object.specs.Relocations.{number_at, relocation, relocation_rows};

use crate::reloc_entry::RelocEntry;
use c6x_elf::{Rela, put_rela};
use c6x_reloc::number_of;
use std::alloc::{AllocError, Global};

fn number_at(numbers: &[usize], symbol: Option<usize>) -> u32
    requires { (k : ℕ) → slice_index numbers.now k < 2 ^ 24 }
    ensures is { result ≡ number_at numbers.now symbol }
    ensures small { result < 2 ^ 24 }
{
    match symbol {
        None => 0,
        Some(i) => {
            if i < numbers.len() {
                numbers[i] as u32
            } else {
                0
            }
        }
    }
}

// The table's entry of a relocation.
#[tactic(auto, unfolding(crate::specs::Relocations::relocation))]
fn relocation(numbers: &[usize], entry: RelocEntry) -> Rela
    requires { (k : ℕ) → slice_index numbers.now k < 2 ^ 24 }
    ensures { result ≡ relocation numbers.now entry }
{
    Rela::new(
        entry.offset,
        number_at(numbers, entry.symbol),
        number_of(entry.kind),
        entry.addend.cast_signed(),
    )
}

/// The relocation table of a section; `numbers` are those of the symbols, which fit the entries.
#[tactic(auto, using(crate::proofs::Rows::rows_at, crate::proofs::Rows::rows_end))]
pub fn relocation_table(
    alloc: Global,
    numbers: &[usize],
    entries: &[RelocEntry],
) -> Result<Vec<u8>, AllocError>
    requires { (k : ℕ) → slice_index numbers.now k < 2 ^ 24 }
    ensures { IfOk result (λ bytes. bytes.items ≡ relocation_rows numbers.now entries.now) }
{
    let mut bytes = Vec::new(alloc);
    for entry in entries {
        put_rela(&mut bytes, false, &relocation(numbers, *entry))?;
    }
    Ok(bytes)
}
