ghost use Rattle.std.specs.Prelude.{◌≡◌, ◌+◌, ◌^◌, ◌<◌, ◌∷◌, ◌++◌, [], length, OnOk, IfOk};
ghost use Rattle.c6x_asm_object.specs.FormSymbols.{names_table};
ghost use Rattle.c6x_asm_object.specs.Symbols.{names_total};
ghost use Rattle.c6x_asm_object.specs.FileNames.{group, name_rows};

use crate::binding::is_in;
use crate::symbol::Symbol;
use c6x_asm_lines::bytes_at;
use c6x_elf::NameTable;
use std::alloc::{AllocError, Global};

// The name of a symbol, if it is of the group.
#[tactic(auto, unfolding(crate::specs::FileNames::group))]
fn put_if(text: &[u8], local: bool, table: &mut NameTable, symbol: Symbol) -> Result<(), AllocError>
    requires { length table.old + names_total text.now (group local (symbol ∷ [])) < 2 ^ 32 }
    ensures { OnOk result (table.new ≡ table.old ++ name_rows text.now (group local (symbol ∷ []))) }
{
    if is_in(local, symbol) {
        table.add(bytes_at(text, symbol.at, symbol.len))?;
    }
    Ok(())
}

#[tactic(auto, using(crate::proofs::GroupNames::names_at, crate::proofs::GroupNames::names_end, crate::proofs::GroupNames::names_within))]
fn put_names(
    text: &[u8],
    local: bool,
    table: &mut NameTable,
    symbols: &[Symbol],
) -> Result<(), AllocError>
    requires { length table.old + names_total text.now (group local symbols.now) < 2 ^ 32 }
    ensures { OnOk result (table.new ≡ table.old ++ name_rows text.now (group local symbols.now)) }
{
    for symbol in symbols {
        put_if(text, local, table, *symbol)?;
    }
    Ok(())
}

/// The names of the symbols: the local ones, then the others.
#[tactic(auto, using(crate::proofs::GroupNames::names_put, crate::proofs::GroupNames::groups_total, crate::proofs::GroupNames::first_size))]
pub fn names_table(alloc: Global, text: &[u8], symbols: &[Symbol]) -> Result<NameTable, AllocError>
    requires { 1 + names_total text.now symbols.now < 2 ^ 32 }
    ensures { IfOk result (λ table. table ≡ names_table text.now symbols.now) }
{
    let mut table = NameTable::new(alloc)?;
    put_names(text, true, &mut table, symbols)?;
    put_names(text, false, &mut table, symbols)?;
    Ok(table)
}
