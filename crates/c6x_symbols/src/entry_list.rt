ghost use Rattle.std.specs.Prelude.{◌≡◌, ◌^◌, ◌++◌, ◌<◌, IfOk, OnOk, [], length, map, if◌then◌else◌};
ghost use Rattle.c6x_symbols.specs.Entries.{entries_of, entry_of, file_entries, is_own, is_used, table_entries, unread};

use crate::object_entry::ObjectEntry;
use crate::sections::is_allocated_at;
use c6x_elf::abi::{SHT_REL, SHT_RELA};
use c6x_elf::{File, Rela, Section, read_relas, symbol_table};
use std::alloc::{AllocError, Global};

/// The relocation entries of all objects that change sections with memory, in object, section and entry order. The
/// byte order is that of the entries.
#[tactic(auto, unfolding(crate::specs::Entries::entries_of), using(crate::proofs::Numbered::numbered_alone))]
pub fn entries(alloc: Global, big: bool, objects: &[File]) -> Result<Vec<ObjectEntry>, AllocError>
    requires few { length objects.now < 2 ^ 32 }
    ensures { IfOk result (λ entries. entries.items ≡ entries_of big objects.now) }
{
    let mut entries = Vec::new(alloc);
    for (number, object) in objects.iter().enumerate() {
        add_file(alloc, big, &mut entries, number as u32, object)?;
    }
    Ok(entries)
}

/// The relocation entries of the object with this number that change sections with memory, in section and entry order.
pub fn file_entries(
    alloc: Global,
    big: bool,
    number: u32,
    object: &File,
) -> Result<Vec<ObjectEntry>, AllocError>
    ensures { IfOk result (λ entries. entries.items ≡ file_entries big (number, object.now)) }
{
    let mut entries = Vec::new(alloc);
    add_file(alloc, big, &mut entries, number, object)?;
    Ok(entries)
}

/// Adds the entries of an object.
#[tactic(auto, unfolding(crate::specs::Entries::file_entries), using(crate::proofs::Listed::filtered_more))]
fn add_file(
    alloc: Global,
    big: bool,
    entries: &mut Vec<ObjectEntry>,
    object: u32,
    file: &File,
) -> Result<(), AllocError>
    ensures { OnOk result (entries.new.items ≡ entries.old.items ++ file_entries big (object, file.now)) }
{
    let sections = file.sections.as_slice();
    let symbols = symbol_table(sections);
    for table in sections {
        add_used(alloc, big, entries, object, file, symbols, table)?;
    }
    Ok(())
}

/// Adds the entries of a section, if it is a table of entries that change a section with memory.
fn add_used(
    alloc: Global,
    big: bool,
    entries: &mut Vec<ObjectEntry>,
    object: u32,
    file: &File,
    symbols: Option<usize>,
    table: &Section,
) -> Result<(), AllocError>
    ensures { OnOk result (entries.new.items ≡ entries.old.items ++ (if is_used file.now.sections table.now then table_entries big object symbols table.now else [])) }
{
    if is_used(file.sections.as_slice(), table) {
        add_table(alloc, big, entries, object, symbols, table)?;
    }
    Ok(())
}

/// Whether a section is a table of entries that change a section with memory.
#[tactic(auto, unfolding(crate::specs::Entries::is_used))]
fn is_used(sections: &[Section], table: &Section) -> bool
    ensures { result ≡ is_used sections.now table.now }
{
    (table.kind == SHT_RELA || table.kind == SHT_REL) && is_allocated_at(sections, table.info)
}

/// Adds the entries of a table, or the one that stands for a table that cannot be read.
#[tactic(auto, unfolding(crate::specs::Entries::table_entries))]
fn add_table(
    alloc: Global,
    big: bool,
    entries: &mut Vec<ObjectEntry>,
    object: u32,
    symbols: Option<usize>,
    table: &Section,
) -> Result<(), AllocError>
    ensures { OnOk result (entries.new.items ≡ entries.old.items ++ table_entries big object symbols table.now) }
{
    if table.kind == SHT_RELA && is_own(symbols, table.link) {
        let relas = read_relas(alloc, big, table.bytes.as_bytes())?;
        add_relas(entries, object, table.info, &relas)
    } else {
        entries.push(unread(object, table.info))?;
        Ok(())
    }
}

/// Whether a table is linked to the object's symbols, or to none.
fn is_own(symbols: Option<usize>, link: u32) -> bool
    ensures { result ≡ is_own symbols link }
{
    match symbols {
        None => link == 0,
        Some(symbols) => link == 0 || link as usize == symbols,
    }
}

/// Adds the entries of a table that changes this section.
#[tactic(auto, using(crate::proofs::Listed::mapped_more))]
fn add_relas(
    entries: &mut Vec<ObjectEntry>,
    object: u32,
    section: u32,
    relas: &[Rela],
) -> Result<(), AllocError>
    ensures { OnOk result (entries.new.items ≡ entries.old.items ++ map (entry_of object section) relas.now) }
{
    for rela in relas {
        entries.push(entry_of(object, section, rela))?;
    }
    Ok(())
}

fn entry_of(object: u32, section: u32, rela: &Rela) -> ObjectEntry
    ensures { result ≡ entry_of object section rela.now }
{
    ObjectEntry {
        object,
        section,
        kind: Some(rela.kind()),
        offset: rela.offset,
        symbol: rela.symbol(),
        addend: rela.addend,
    }
}

fn unread(object: u32, section: u32) -> ObjectEntry
    ensures { result ≡ unread object section }
{
    ObjectEntry {
        object,
        section,
        kind: None,
        offset: 0,
        symbol: 0,
        addend: 0,
    }
}
