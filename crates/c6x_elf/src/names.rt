ghost use Rattle.std.specs.Prelude.{◌≡◌, ◌+◌, ◌*◌, ◌/◌, ◌<◌, ◌≤◌, length, IfOk};
ghost use Rattle.std.specs.List.{range_with_len};
ghost use Rattle.c6x_base.specs.declared.limits.TheConstants.{MOST_FILE_BYTES};
ghost use Rattle.c6x_elf_headers.specs.Rules.{along_both, first_along, Passes};
ghost use Rattle.c6x_elf.specs.Entries.{ArePlaced, entries_refusal, IsPlaced, is_section_number, name_end, name_ends, name_refusal, named_refusal, own_name_refusal, rela_refusal, relas_refusal, symbol_refusal, symbols_in, symbols_refusal, text_of};

use crate::lists::section_bytes;
use crate::parts::{is_relocation_table, is_symbol_table};
use crate::section::Section;
use c6x_elf_headers::abi::SHN_LORESERVE;
use c6x_elf_headers::{ElfError, ElfRule, SectionHead, check, read_half, read_word};
use std::alloc::{AllocError, Global};

/// The name and the entries of each section, where `names` is the section of the names.
#[tactic(auto, using(crate::proofs::EntryWalks::along_both_drop, crate::proofs::EntryWalks::along_both_all, crate::proofs::EntryWalks::placed_here, crate::proofs::EntryWalks::placed_drop))]
pub fn check_names(
    alloc: Global,
    big: bool,
    names: u16,
    heads: &[SectionHead],
    sections: &[Section],
) -> Result<(), ElfError>
    requires same { length heads.now ≡ length sections.now }
    requires placed { ArePlaced heads.now sections.now }
    ensures { Passes result (along_both (named_refusal big names sections.now) heads.now sections.now) }
{
    let ends = name_ends(alloc, sections)?;
    for (k, section) in sections.iter().enumerate() {
        check_named(big, names, sections, &ends, &heads[k], section)?;
    }
    Ok(())
}

/// A section's name, and then its entries.
#[tactic(auto, unfolding(crate::specs::Entries::named_refusal))]
fn check_named(
    big: bool,
    names: u16,
    sections: &[Section],
    ends: &[usize],
    head: &SectionHead,
    section: &Section,
) -> Result<(), ElfError>
    requires ends { ends.now ≡ name_ends sections.now }
    requires placed { IsPlaced head.now section.now }
    ensures { Passes result (named_refusal big names sections.now head.now section.now) }
{
    check_own_name(names, sections, ends, head)?;
    check_entries(big, sections, ends, head, section.bytes.as_bytes())
}

/// A section's own name.
#[tactic(auto, unfolding(crate::specs::Entries::own_name_refusal))]
fn check_own_name(
    names: u16,
    sections: &[Section],
    ends: &[usize],
    head: &SectionHead,
) -> Result<(), ElfError>
    requires { ends.now ≡ name_ends sections.now }
    ensures { Passes result (own_name_refusal names sections.now head.now) }
{
    if names == 0 {
        return Ok(());
    }
    check_name(sections, ends, u32::from(names), head.name, head.at)
}

/// The entries of a table.
#[tactic(auto, unfolding(crate::specs::Entries::entries_refusal))]
fn check_entries(
    big: bool,
    sections: &[Section],
    ends: &[usize],
    head: &SectionHead,
    table: &[u8],
) -> Result<(), ElfError>
    requires ends { ends.now ≡ name_ends sections.now }
    requires placed { 1 ≤ length table.now → head.now.offset + length table.now ≤ MOST_FILE_BYTES }
    ensures { Passes result (entries_refusal big sections.now head.now table.now) }
{
    if is_symbol_table(head.kind) {
        return check_symbols(big, sections, ends, head, table);
    }
    if is_relocation_table(head.kind) {
        return check_relas(big, sections, head, table);
    }
    Ok(())
}

/// The symbols of a table in order.
#[tactic(auto, unfolding(crate::specs::Entries::symbols_refusal), using(crate::proofs::EntryWalks::symbols_more))]
fn check_symbols(
    big: bool,
    sections: &[Section],
    ends: &[usize],
    head: &SectionHead,
    table: &[u8],
) -> Result<(), ElfError>
    requires ends { ends.now ≡ name_ends sections.now }
    requires placed { 1 ≤ length table.now → head.now.offset + length table.now ≤ MOST_FILE_BYTES }
    ensures { Passes result (symbols_refusal big sections.now head.now table.now) }
{
    for k in 0..table.len() / 16 {
        check_symbol(big, sections, ends, head, table, k)?;
    }
    Ok(())
}

/// The relocations of a table in order.
#[tactic(auto, unfolding(crate::specs::Entries::relas_refusal), using(crate::proofs::EntryWalks::relas_more))]
fn check_relas(
    big: bool,
    sections: &[Section],
    head: &SectionHead,
    table: &[u8],
) -> Result<(), ElfError>
    requires { 1 ≤ length table.now → head.now.offset + length table.now ≤ MOST_FILE_BYTES }
    ensures { Passes result (relas_refusal big sections.now head.now table.now) }
{
    for k in 0..table.len() / 12 {
        check_rela(big, sections, head, table, k)?;
    }
    Ok(())
}

/// Symbol number `k` of a table: its name and its section's number.
#[tactic(auto, unfolding(crate::specs::Entries::symbol_refusal))]
fn check_symbol(
    big: bool,
    sections: &[Section],
    ends: &[usize],
    head: &SectionHead,
    table: &[u8],
    k: usize,
) -> Result<(), ElfError>
    requires ends { ends.now ≡ name_ends sections.now }
    requires within { 16 * k + 16 ≤ length table.now }
    requires placed { head.now.offset + length table.now ≤ MOST_FILE_BYTES }
    ensures { Passes result (symbol_refusal big sections.now head.now table.now k) }
{
    let at = 16 * k;
    let place = head.offset + at as u32;
    check_name(sections, ends, head.link, read_word(big, table, at), place)?;
    let section = read_half(big, table, at + 14);
    check(
        is_section_number(sections.len(), section),
        ElfRule::Index,
        place + 14,
    )
}

/// Relocation number `k` of a table: its symbol's number.
#[tactic(auto, unfolding(crate::specs::Entries::rela_refusal))]
fn check_rela(
    big: bool,
    sections: &[Section],
    head: &SectionHead,
    table: &[u8],
    k: usize,
) -> Result<(), ElfError>
    requires within { 12 * k + 12 ≤ length table.now }
    requires placed { head.now.offset + length table.now ≤ MOST_FILE_BYTES }
    ensures { Passes result (rela_refusal big sections.now head.now table.now k) }
{
    let at = 12 * k;
    let symbol = read_word(big, table, at + 4) / 256;
    let place = head.offset + at as u32 + 4;
    check(
        (symbol as usize) < symbols_in(sections, head.link),
        ElfRule::Index,
        place,
    )
}

/// A name begins in its table, and a zero byte ends it there.
#[tactic(auto, unfolding(crate::specs::Entries::name_refusal), using(crate::proofs::EntryWalks::has_end_before))]
fn check_name(
    sections: &[Section],
    ends: &[usize],
    table: u32,
    name: u32,
    place: u32,
) -> Result<(), ElfError>
    requires { ends.now ≡ name_ends sections.now }
    ensures { Passes result (name_refusal (text_of sections.now table) name place) }
{
    check(
        (name as usize) < section_bytes(sections, table).len(),
        ElfRule::Index,
        place,
    )?;
    check(
        (name as usize) < end_at(sections, ends, table),
        ElfRule::NoNul,
        place,
    )
}

/// How many symbols the linked section has.
#[tactic(auto, unfolding(crate::specs::Entries::symbols_in))]
fn symbols_in(sections: &[Section], link: u32) -> usize
    ensures { result ≡ symbols_in sections.now link }
{
    if link == 0 {
        return 1;
    }
    section_bytes(sections, link).len() / 16
}

/// Whether a symbol's section number stands for no section, or for one of `count`.
#[tactic(auto, unfolding(crate::specs::Entries::is_section_number))]
fn is_section_number(count: usize, number: u16) -> bool
    ensures { result ≡ is_section_number count number }
{
    SHN_LORESERVE <= number || usize::from(number) < count
}

/// The end of the names in the section with this number; 0 where there is no such section.
#[tactic(auto, using(crate::proofs::EntryWalks::end_here, crate::proofs::EntryWalks::end_past))]
fn end_at(sections: &[Section], ends: &[usize], number: u32) -> usize
    requires { ends.now ≡ name_ends sections.now }
    ensures { result ≡ name_end (text_of sections.now number) }
{
    if ends.len() <= number as usize {
        return 0;
    }
    ends[number as usize]
}

/// The end of the names in each section.
#[tactic(auto, unfolding(crate::specs::Entries::name_ends))]
fn name_ends(alloc: Global, sections: &[Section]) -> Result<Vec<usize>, AllocError>
    ensures { IfOk result (λ ends. ends.items ≡ name_ends sections.now) }
{
    sections
        .iter()
        .map(|section| name_end(section.bytes.as_bytes()))
        .collect(alloc)
}

/// The place behind the last zero byte; 0 where there is none.
#[tactic(auto, using(crate::proofs::EntryWalks::end_zero, crate::proofs::EntryWalks::end_other))]
fn name_end(text: &[u8]) -> usize
    ensures { result ≡ name_end text.now }
{
    let mut end = 0;
    for (i, byte) in text.iter().enumerate() {
        if *byte == 0 {
            end = i + 1;
        }
    }
    end
}
