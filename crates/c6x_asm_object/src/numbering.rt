ghost use Rattle.std.specs.Prelude.{◌≡◌, ℕ, ◌+◌, ◌<◌, ◌≤◌, ◌^◌, count_by, length, slice_index, IfOk};
ghost use Rattle.c6x_asm_object.specs.Bindings.{is_local};
ghost use Rattle.c6x_asm_object.specs.FormSymbols.{symbol_numbers};

use crate::binding::is_local;
use crate::symbol::Symbol;
use std::alloc::{AllocError, Global};

/// How many of these symbols are local.
pub fn count_local(symbols: &[Symbol]) -> usize
    ensures is { result ≡ count_by is_local symbols.now }
    ensures few { result ≤ length symbols.now }
{
    symbols.iter().filter(|symbol| is_local(**symbol)).count()
}

/// The number of each symbol in the table of an object with so many sections.
#[tactic(auto, unfolding(crate::specs::FormSymbols::symbol_numbers), using(crate::proofs::Counts::number_local, crate::proofs::Counts::number_other, crate::proofs::Counts::numbers_more, crate::proofs::Counts::local_yes, crate::proofs::Counts::local_no, crate::proofs::Counts::other_yes, crate::proofs::Counts::other_no))]
pub fn symbol_numbers(
    alloc: Global,
    sections: usize,
    symbols: &[Symbol],
) -> Result<Vec<usize>, AllocError>
    requires { sections < 2 ^ 32 }
    ensures is { IfOk result (λ numbers. numbers.items ≡ symbol_numbers sections symbols.now) }
    ensures below { IfOk result (λ numbers. (k : ℕ) → slice_index numbers.items k < 1 + sections + length symbols.now) }
{
    let mut numbers = Vec::new(alloc);
    let mut local = 1 + sections;
    let mut other = 1 + sections + count_local(symbols);
    for symbol in symbols {
        if is_local(*symbol) {
            numbers.push(local).map_err(AllocError::from)?;
            local += 1;
        } else {
            numbers.push(other).map_err(AllocError::from)?;
            other += 1;
        }
    }
    Ok(numbers)
}
