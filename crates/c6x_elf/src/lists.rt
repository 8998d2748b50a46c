ghost use Rattle.std.specs.Prelude.{◌≡◌, ◌<◌, IfOk, IfSome, length};
ghost use Rattle.c6x_elf.specs.Entries.{text_of};
ghost use Rattle.c6x_elf.specs.Lists.{is_end, is_under, section_name, symbols_of, symtab_of};

use crate::file::File;
use crate::section::Section;
use c6x_elf_headers::abi::SHT_SYMTAB;
use c6x_elf_headers::{Symbol, name_at, read_symbols};
use std::alloc::{AllocError, Global};

/// The bytes of the section with this number; none where there is no such section.
#[tactic(auto, unfolding(crate::specs::Entries::text_of), using(crate::proofs::EntryWalks::text_here, crate::proofs::EntryWalks::text_past))]
pub fn section_bytes(sections: &[Section], number: u32) -> &[u8]
    ensures { result.now ≡ text_of sections.now number }
{
    if sections.len() <= number as usize {
        return &[];
    }
    sections[number as usize].bytes.as_bytes()
}

/// The number of the first symbol table, if there is one.
#[tactic(auto, unfolding(crate::specs::Lists::symtab_of))]
pub fn symbol_table(sections: &[Section]) -> Option<usize>
    ensures number { result ≡ symtab_of sections.now }
    ensures within { IfSome result (λ number. number < length sections.now) }
{
    sections
        .iter()
        .position(|section| section.kind == SHT_SYMTAB)
}

/// The symbols of a file, which are those of its first symbol table.
#[tactic(auto, unfolding(crate::specs::Lists::symbols_of), using(crate::proofs::EntryWalks::text_here))]
pub fn symbols(alloc: Global, big: bool, sections: &[Section]) -> Result<Vec<Symbol>, AllocError>
    ensures { IfOk result (λ symbols. symbols.items ≡ symbols_of big sections.now) }
{
    match symbol_table(sections) {
        Some(number) => read_symbols(alloc, big, sections[number].bytes.as_bytes()),
        None => Ok(Vec::new(alloc)),
    }
}

/// The name of a section of a file; it is empty where the file has no names of sections.
#[tactic(auto, unfolding(crate::specs::Lists::section_name))]
pub fn section_name<'a>(file: &'a File, section: &Section) -> &'a [u8]
    ensures { result.now ≡ section_name file.now.names file.now.sections section.now }
{
    if file.names == 0 {
        return &[];
    }
    let names = section_bytes(file.sections.as_slice(), u32::from(file.names));
    match name_at(names, section.name) {
        Some(name) => name,
        None => &[],
    }
}

/// Whether a name is `front`, or begins with it and a dot.
#[tactic(auto, unfolding(crate::specs::Lists::is_under))]
pub fn is_under(name: &[u8], front: &[u8]) -> bool
    ensures { result ≡ is_under front.now name.now }
{
    match name.strip_prefix(front) {
        Some(rest) => is_end(rest),
        None => false,
    }
}

/// Whether nothing follows, or a dot and more.
fn is_end(rest: &[u8]) -> bool
    ensures { result ≡ is_end rest.now }
{
    match rest {
        [] => true,
        [first, ..] => *first == b'.',
    }
}
