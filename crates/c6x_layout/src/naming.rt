ghost use Rattle.std.specs.Prelude.{◌≡◌, ◌+◌, ◌^◌, ◌≤◌, ◌<◌, ◌++◌, false, IfOk, OnOk, length, map};
ghost use Rattle.c6x_elf.specs.EntryRows.{dynamic_rows, symbol_rows};
ghost use Rattle.c6x_layout.specs.Tables.{entry, first_symbols, name_places, name_rows, shared_names, shared_symbols};

use crate::file_limits::TEXT_START;
use crate::shared::Shared;
use c6x_base::Name;
use c6x_elf::abi::STT_SECTION;
use c6x_elf::{Dyn, NameTable, Symbol, put_dynamic, put_symbol};
use std::alloc::AllocError;

/// Puts the null symbol and those of the two segments.
#[tactic(auto, unfolding(crate::specs::Tables::first_symbols), using(crate::proofs::NameRows::three_symbols))]
pub fn put_first_symbols(out: &mut Vec<u8>, table: u32) -> Result<(), AllocError>
    ensures { OnOk result (out.new.items ≡ out.old.items ++ symbol_rows false (first_symbols table)) }
{
    put_symbol(out, false, &segment_symbol(0, 0, 0))?;
    put_symbol(out, false, &segment_symbol(TEXT_START, STT_SECTION, 1))?;
    put_symbol(out, false, &segment_symbol(table, STT_SECTION, 2))
}

/// A symbol without a name.
fn segment_symbol(value: u32, info: u8, section: u16) -> Symbol
    ensures { result ≡ record { name = 0; value = value; size = 0; info = info; other = 0; section = section } }
{
    Symbol {
        name: 0,
        value,
        size: 0,
        info,
        other: 0,
        section,
    }
}

/// Puts the exports and imports, and their names behind the other strings.
pub fn put_shared(
    out: &mut Vec<u8>,
    strings: &mut NameTable,
    shared: &[Shared],
) -> Result<(), AllocError>
    requires { length strings.old + length (name_rows (shared_names shared.now)) < 2 ^ 32 }
    ensures symbols { OnOk result (out.new.items ≡ out.old.items ++ symbol_rows false (shared_symbols (length strings.old) shared.now)) }
    ensures strings { OnOk result (strings.new ≡ strings.old ++ name_rows (shared_names shared.now)) }
{
    for symbol in shared {
        let name = strings.add(symbol.name.as_bytes())?;
        put_symbol(
            out,
            false,
            &Symbol {
                name,
                value: symbol.value,
                size: symbol.size,
                info: symbol.info,
                other: symbol.other,
                section: symbol.section,
            },
        )?;
    }
    Ok(())
}

/// Puts a dynamic entry for each name, and the names behind the other strings.
pub fn put_named(
    out: &mut Vec<u8>,
    strings: &mut NameTable,
    tag: u32,
    names: &[Name],
) -> Result<(), AllocError>
    requires { length strings.old + length (name_rows names.now) < 2 ^ 32 }
    ensures entries { OnOk result (out.new.items ≡ out.old.items ++ dynamic_rows false (map (entry tag) (name_places (length strings.old) names.now))) }
    ensures strings { OnOk result (strings.new ≡ strings.old ++ name_rows names.now) }
{
    for name in names {
        let value = strings.add(name.as_bytes())?;
        put_dynamic(out, false, &Dyn { tag, value })?;
    }
    Ok(())
}
