ghost use Rattle.std.specs.Prelude.{◌≡◌, ◌+◌, ◌^◌, ◌≤◌, ◌<◌, ◌++◌, false, IfOk, OnOk, length, map};
ghost use Rattle.c6x_elf.specs.Abi.{DT_SONAME};
ghost use Rattle.c6x_elf.specs.EntryRows.{dynamic_rows, symbol_rows};
ghost use Rattle.c6x_layout.specs.Tables.{entry, if_named, name_places, name_rows, needed_entries, soname_entries, strings_of, symbols_of};
ghost use Rattle.c6x_layout.specs.declared.file_limits.TheConstants.{MOST_SEGMENT_BYTES};

use crate::name_tables::NameTables;
use crate::naming::{put_first_symbols, put_named, put_shared};
use crate::parts::Parts;
use c6x_base::Name;
use c6x_elf::NameTable;
use c6x_elf::abi::{DT_NEEDED, DT_SONAME};
use std::alloc::{AllocError, Global};

/// Puts the dynamic entry of the module's own name, if it has one.
fn put_soname(
    out: &mut Vec<u8>,
    strings: &mut NameTable,
    soname: &Option<Name>,
) -> Result<(), AllocError>
    requires { length strings.old + length (name_rows (if_named soname.now)) < 2 ^ 32 }
    ensures entries { OnOk result (out.new.items ≡ out.old.items ++ dynamic_rows false (map (entry DT_SONAME) (name_places (length strings.old) (if_named soname.now)))) }
    ensures strings { OnOk result (strings.new ≡ strings.old ++ name_rows (if_named soname.now)) }
{
    match soname {
        Some(name) => put_named(out, strings, DT_SONAME, std::slice::from_ref(name)),
        None => Ok(()),
    }
}

/// The tables of names of a module.
#[tactic(auto, unfolding(crate::specs::Tables::needed_entries, crate::specs::Tables::soname_entries), using(crate::proofs::NameEnds::shared_room, crate::proofs::NameEnds::soname_room, crate::proofs::NameEnds::needed_room, crate::proofs::NameEnds::strings_are, crate::proofs::NameEnds::symbols_are, crate::proofs::NameEnds::shared_end, crate::proofs::NameEnds::soname_end, crate::proofs::NameEnds::one_byte))]
pub fn name_tables(alloc: Global, parts: &Parts) -> Result<NameTables, AllocError>
    requires { length (strings_of parts.now) ≤ MOST_SEGMENT_BYTES }
    ensures symbols { IfOk result (λ t. t.symbols.items ≡ symbol_rows false (symbols_of parts.now)) }
    ensures strings { IfOk result (λ t. t.strings ≡ strings_of parts.now) }
    ensures entries { IfOk result (λ t. t.entries.items ≡ dynamic_rows false (needed_entries parts.now) ++ dynamic_rows false (soname_entries parts.now)) }
{
    let mut symbols = Vec::new(alloc);
    let mut entries = Vec::new(alloc);
    let mut soname = Vec::new(alloc);
    let mut strings = NameTable::new(alloc)?;
    put_first_symbols(&mut symbols, parts.table)?;
    put_shared(&mut symbols, &mut strings, parts.shared.as_slice())?;
    put_soname(&mut soname, &mut strings, &parts.soname)?;
    put_named(
        &mut entries,
        &mut strings,
        DT_NEEDED,
        parts.needed.as_slice(),
    )?;
    entries.extend_from_slice(&soname)?;
    Ok(NameTables {
        symbols,
        strings: strings.into_bytes(),
        entries,
    })
}
