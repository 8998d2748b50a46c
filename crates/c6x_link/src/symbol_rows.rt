ghost use Rattle.std.specs.Prelude.{◌≡◌, [], IfOk, map, slice_get, slice_index_or};
ghost use Rattle.c6x_link.specs.Symbols.{symbols_in};

use c6x_base::Row;
use c6x_elf::{File, Symbol, symbols};
use std::alloc::{AllocError, Global};

/// The symbols of each object.
#[tactic(auto, using(c6x_symbols::proofs::Listed::mapped_more))]
pub fn symbol_rows(alloc: Global, objects: &[File]) -> Result<Vec<Row<Symbol>>, AllocError>
    ensures { IfOk result (λ rows. rows.items ≡ map symbols_in objects.now) }
{
    let mut rows = Vec::new(alloc);
    for object in objects {
        rows.push(Row::of(symbols(alloc, false, object.sections.as_slice())?))?;
    }
    Ok(rows)
}

/// The symbol with this number of an object, if there is one.
pub fn found_symbol(rows: &[Row<Symbol>], object: u32, number: u32) -> Option<Symbol>
    ensures { result ≡ slice_get (slice_index_or rows.now object []) number }
{
    match rows.get(object as usize) {
        Some(row) => row.as_slice().get(number as usize).copied(),
        None => None,
    }
}
