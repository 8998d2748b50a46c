ghost use Rattle.std.specs.Prelude.{◌≡◌, ℕ, ◌+◌, ◌^◌, ◌<◌, ◌≤◌, [], ◌∷◌, All, count_by, length, map, slice_index, OnOk};
ghost use Rattle.c6x_asm_object.specs.Filing.{has_entries, named_section, named_relas, names_of};
ghost use Rattle.c6x_asm_object.specs.Adding.{added};
ghost use Rattle.c6x_asm_object.specs.Fitting.{IsListed};

use crate::asm_section::AsmSection;
use crate::headers::{TableKind, section_header, table_section};
use crate::relocating::relocation_table;
use crate::section_table::SectionTable;
use c6x_asm_lines::bytes_at;
use c6x_elf::abi::SHT_RELA;
use std::alloc::{AllocError, Global};

/// The named sections.
#[tactic(auto, using(crate::proofs::Adds::added_at, crate::proofs::Adds::added_end, crate::proofs::Rooms::added_within))]
pub fn add_named_sections(
    alloc: Global,
    text: &[u8],
    sections: &[AsmSection],
    table: &mut SectionTable,
) -> Result<(), AllocError>
    requires { length table.old.names + length (names_of (map (named_section text.now) sections.now)) < 2 ^ 32 }
    ensures { OnOk result (table.new ≡ added (map (named_section text.now) sections.now) table.old) }
{
    for section in sections {
        let header = section_header(alloc, section)?;
        table.add(&[], bytes_at(text, section.at, section.len), header)?;
    }
    Ok(())
}

/// Whether a section has relocations.
pub fn has_entries(section: &AsmSection) -> bool
    ensures { result ≡ has_entries section.now }
{
    !section.entries.as_slice().is_empty()
}

// The relocation table of the section with this number, if it has relocations.
#[tactic(auto, using(crate::proofs::Adds::added_none, crate::proofs::Rooms::rela_size))]
fn add_rela(
    alloc: Global,
    text: &[u8],
    numbers: &[usize],
    symtab: u32,
    number: u32,
    section: &AsmSection,
    table: &mut SectionTable,
) -> Result<(), AllocError>
    requires numbers { (k : ℕ) → slice_index numbers.now k < 2 ^ 24 }
    requires listed { IsListed section.now }
    requires titles { length table.old.names < 2 ^ 32 }
    ensures { OnOk result (table.new ≡ added (named_relas text.now numbers.now symtab number (section.now ∷ [])) table.old) }
{
    if !has_entries(section) {
        return Ok(());
    }
    let bytes = relocation_table(alloc, numbers, section.entries.as_slice())?;
    let kind = TableKind {
        kind: SHT_RELA,
        link: symtab,
        info: number,
        align: 4,
        entsize: 12,
    };
    let header = table_section(alloc, kind, bytes.as_slice())?;
    table.add(b".rela", bytes_at(text, section.at, section.len), header)
}

/// The relocation tables of the named sections.
#[tactic(auto, using(crate::proofs::Adds::relas_at, crate::proofs::Adds::relas_end, crate::proofs::Rooms::added_within))]
pub fn add_relas(
    alloc: Global,
    text: &[u8],
    numbers: &[usize],
    symtab: u32,
    sections: &[AsmSection],
    table: &mut SectionTable,
) -> Result<(), AllocError>
    requires numbers { (k : ℕ) → slice_index numbers.now k < 2 ^ 24 }
    requires few { length sections.now < 2 ^ 16 }
    requires listed { All IsListed sections.now }
    requires titles { length table.old.names + length (names_of (named_relas text.now numbers.now symtab 1 sections.now)) < 2 ^ 32 }
    ensures { OnOk result (table.new ≡ added (named_relas text.now numbers.now symtab 1 sections.now) table.old) }
{
    let mut number = 1;
    for section in sections {
        add_rela(alloc, text, numbers, symtab, number, section, table)?;
        number += 1;
    }
    Ok(())
}

/// How many sections have relocations.
pub fn count_relas(sections: &[AsmSection]) -> usize
    ensures is { result ≡ count_by has_entries sections.now }
    ensures few { result ≤ length sections.now }
{
    sections
        .iter()
        .filter(|section| has_entries(section))
        .count()
}
