ghost use Rattle.std.specs.Prelude.{◌≡◌, ◌+◌, ◌^◌, ◌<◌, ◌≤◌, [], ◌∷◌, All, length, IfOk, OnOk};
ghost use Rattle.c6x_asm_object.specs.Filing.{symtab_of, named_sections, named_strtab, named_symtab, names_of, file_of};
ghost use Rattle.c6x_asm_object.specs.Symbols.{names_total};
ghost use Rattle.c6x_asm_object.specs.Adding.{added};
ghost use Rattle.c6x_asm_object.specs.Fitting.{FitsFields, IsPlaced};

use crate::adding::{add_named_sections, add_relas, count_relas};
use crate::asm_section::AsmSection;
use crate::entries::symbol_table;
use crate::headers::{STRINGS, TableKind, table_section};
use crate::numbering::{count_local, symbol_numbers};
use crate::section_table::SectionTable;
use crate::strings::names_table;
use crate::symbol::Symbol;
use c6x_base::Row;
use c6x_elf::File;
use c6x_elf::abi::{ET_REL, SHT_SYMTAB};
use std::alloc::{AllocError, Global};

// The number of the symbol table.
fn symtab_of(sections: &[AsmSection]) -> u16
    requires { symtab_of sections.now + 2 < 2 ^ 16 }
    ensures { result ≡ symtab_of sections.now }
{
    (1 + sections.len() + count_relas(sections)) as u16
}

// The symbol table.
#[tactic(auto, unfolding(crate::specs::Filing::named_symtab), using(crate::proofs::Rooms::symbols_size))]
fn add_symtab(
    alloc: Global,
    text: &[u8],
    sections: &[AsmSection],
    symbols: &[Symbol],
    table: &mut SectionTable,
) -> Result<(), AllocError>
    requires headers { symtab_of sections.now + 2 < 2 ^ 16 }
    requires numbered { 1 + length sections.now + length symbols.now ≤ 2 ^ 24 }
    requires names { 1 + names_total text.now symbols.now < 2 ^ 32 }
    requires placed { All IsPlaced symbols.now }
    requires titles { length table.old.names < 2 ^ 32 }
    ensures { OnOk result (table.new ≡ added (named_symtab text.now sections.now symbols.now ∷ []) table.old) }
{
    let bytes = symbol_table(alloc, text, sections.len(), symbols)?;
    let kind = TableKind {
        kind: SHT_SYMTAB,
        link: u32::from(symtab_of(sections)) + 1,
        info: (1 + sections.len() + count_local(symbols)) as u32,
        align: 4,
        entsize: 16,
    };
    let section = table_section(alloc, kind, bytes.as_slice())?;
    table.add(&[], b".symtab", section)
}

// The names of the symbols.
#[tactic(auto, unfolding(crate::specs::Filing::named_strtab), using(crate::proofs::Rooms::strings_size))]
fn add_strtab(
    alloc: Global,
    text: &[u8],
    symbols: &[Symbol],
    table: &mut SectionTable,
) -> Result<(), AllocError>
    requires names { 1 + names_total text.now symbols.now < 2 ^ 32 }
    requires titles { length table.old.names < 2 ^ 32 }
    ensures { OnOk result (table.new ≡ added (named_strtab text.now symbols.now ∷ []) table.old) }
{
    let names = names_table(alloc, text, symbols)?;
    let section = table_section(alloc, STRINGS, names.as_bytes())?;
    table.add(&[], b".strtab", section)
}

// All sections but the null section and the names of the sections.
#[tactic(auto, using(crate::proofs::Adds::added_all, crate::proofs::Rooms::names_added, crate::proofs::Rooms::names_sum))]
fn add_sections(
    alloc: Global,
    text: &[u8],
    sections: &[AsmSection],
    symbols: &[Symbol],
    table: &mut SectionTable,
) -> Result<(), AllocError>
    requires fits { FitsFields text.now sections.now symbols.now }
    requires titles { length table.old.names + length (names_of (named_sections text.now sections.now symbols.now)) < 2 ^ 32 }
    ensures { OnOk result (table.new ≡ added (named_sections text.now sections.now symbols.now) table.old) }
{
    let numbers = symbol_numbers(alloc, sections.len(), symbols)?;
    let symtab = u32::from(symtab_of(sections));
    add_named_sections(alloc, text, sections, table)?;
    add_relas(alloc, text, numbers.as_slice(), symtab, sections, table)?;
    add_symtab(alloc, text, sections, symbols, table)?;
    add_strtab(alloc, text, symbols, table)
}

/// The object file of these sections and symbols of a text.
#[tactic(auto, unfolding(crate::specs::Filing::file_of), using(crate::proofs::Adds::sections_made, crate::proofs::Rooms::first_room, crate::proofs::Rooms::last_room))]
pub fn file_of(
    alloc: Global,
    text: &[u8],
    sections: &[AsmSection],
    symbols: &[Symbol],
) -> Result<File, AllocError>
    requires { FitsFields text.now sections.now symbols.now }
    ensures { IfOk result (λ file. file ≡ file_of text.now sections.now symbols.now) }
{
    let mut table = SectionTable::new(alloc)?;
    add_sections(alloc, text, sections, symbols, &mut table)?;
    Ok(File {
        kind: ET_REL,
        entry: 0,
        flags: 0,
        names: symtab_of(sections) + 2,
        segments: Row::of(Vec::new(alloc)),
        sections: Row::of(table.finish(alloc)?),
    })
}
