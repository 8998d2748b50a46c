ghost use Rattle.std.specs.Prelude.{◌≡◌, ◌^◌, ◌<◌, length, IfOk};
ghost use Rattle.c6x_asm_object.specs.Headers.{section_type, section_flags, section_header, table_section, null_section};

use crate::asm_section::AsmSection;
use crate::section_kind::SectionKind;
use c6x_base::Bytes;
use c6x_elf::Section;
use c6x_elf::abi::{
    SHF_ALLOC, SHF_EXECINSTR, SHF_WRITE, SHT_NOBITS, SHT_NULL, SHT_PROGBITS, SHT_STRTAB,
};
use std::alloc::{AllocError, Global};

fn section_type(kind: SectionKind) -> u32
    ensures { result ≡ section_type kind }
{
    match kind {
        SectionKind::Zero => SHT_NOBITS,
        _ => SHT_PROGBITS,
    }
}

fn section_flags(kind: SectionKind) -> u32
    ensures { result ≡ section_flags kind }
{
    match kind {
        SectionKind::Text => SHF_ALLOC + SHF_EXECINSTR,
        SectionKind::Constant => SHF_ALLOC,
        SectionKind::Zero | SectionKind::Data => SHF_WRITE + SHF_ALLOC,
    }
}

/// The header of a section of the text, whose name is not said yet, and its bytes.
#[tactic(auto, unfolding(crate::specs::Headers::section_header))]
pub fn section_header(alloc: Global, section: &AsmSection) -> Result<Section, AllocError>
    ensures { IfOk result (λ header. header ≡ section_header section.now) }
{
    let bytes = Bytes::from_bytes(alloc, section.bytes.as_slice())?;
    Ok(Section {
        name: 0,
        kind: section_type(section.kind),
        flags: section_flags(section.kind),
        addr: 0,
        size: section.size,
        link: 0,
        info: 0,
        align: section.align,
        entsize: 0,
        bytes,
    })
}

/// What a table's header says beside its length.
#[derive(Clone, Copy)]
pub struct TableKind {
    pub kind: u32,
    pub link: u32,
    pub info: u32,
    pub align: u32,
    pub entsize: u32,
}

/// A table of names has no other numbers.
pub const STRINGS: TableKind = TableKind {
    kind: SHT_STRTAB,
    link: 0,
    info: 0,
    align: 1,
    entsize: 0,
};

/// The section of a table, without its name.
#[tactic(auto, unfolding(crate::specs::Headers::table_section))]
pub fn table_section(alloc: Global, table: TableKind, bytes: &[u8]) -> Result<Section, AllocError>
    requires { length bytes.now < 2 ^ 32 }
    ensures { IfOk result (λ section. section ≡ table_section table.kind table.link table.info table.align table.entsize bytes.now) }
{
    let size = bytes.len() as u32;
    let bytes = Bytes::from_bytes(alloc, bytes)?;
    Ok(Section {
        name: 0,
        kind: table.kind,
        flags: 0,
        addr: 0,
        size,
        link: table.link,
        info: table.info,
        align: table.align,
        entsize: table.entsize,
        bytes,
    })
}

/// The section with number 0.
#[tactic(auto, unfolding(crate::specs::Headers::null_section))]
pub fn null_section(alloc: Global) -> Result<Section, AllocError>
    ensures { IfOk result (λ section. section ≡ null_section) }
{
    let null = TableKind {
        kind: SHT_NULL,
        link: 0,
        info: 0,
        align: 0,
        entsize: 0,
    };
    table_section(alloc, null, &[])
}
