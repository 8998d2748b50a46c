ghost use Rattle.std.specs.Prelude.{◌≡◌, IfOk, map};
ghost use Rattle.c6x_module.specs.Modules.{needed_of, symbol_of};

use crate::sums::name_in;
use c6x_base::{Name, Row};
use c6x_elf::abi::DT_NEEDED;
use c6x_elf::{Dyn, Symbol};
use c6x_module::DynSymbol;
use std::alloc::{AllocError, Global};

/// The symbols with their names in place of offsets.
#[tactic(auto, using(crate::proofs::Walks::copied_more))]
pub fn copy_symbols(
    alloc: Global,
    strings: &[u8],
    symbols: &[Symbol],
) -> Result<Row<DynSymbol>, AllocError>
    ensures { IfOk result (λ row. row ≡ map (symbol_of strings.now) symbols.now) }
{
    let mut row = Row::new(alloc);
    for symbol in symbols {
        row.push(copy_symbol(alloc, strings, symbol)?)?;
    }
    Ok(row)
}

/// A symbol with its name.
#[tactic(auto, unfolding(c6x_module::specs::Modules::symbol_of))]
fn copy_symbol(alloc: Global, strings: &[u8], symbol: &Symbol) -> Result<DynSymbol, AllocError>
    ensures { IfOk result (λ copied. copied ≡ symbol_of strings.now symbol.now) }
{
    let name = Name::from_bytes(alloc, name_in(strings, symbol.name))?;
    Ok(DynSymbol {
        name,
        value: symbol.value,
        info: symbol.info,
        other: symbol.other,
        section: symbol.section,
    })
}

/// The names of the modules that are needed.
#[tactic(auto, using(crate::proofs::Walks::named_more))]
pub fn copy_needed(alloc: Global, strings: &[u8], entries: &[Dyn]) -> Result<Row<Name>, AllocError>
    ensures { IfOk result (λ row. row ≡ needed_of strings.now entries.now) }
{
    let mut row = Row::new(alloc);
    for entry in entries {
        if entry.tag == DT_NEEDED {
            row.push(Name::from_bytes(alloc, name_in(strings, entry.value))?)?;
        }
    }
    Ok(row)
}
