ghost use Rattle.std.specs.Prelude.{◌≡◌, ◌+◌, ◌*◌, ◌^◌, ◌<◌, ◌≤◌, length, take, drop, IsTrue, IfOk, OnOk};
ghost use Rattle.c6x_base.specs.declared.limits.TheConstants.{MOST_FILE_BYTES, MOST_HELD_BYTES};
ghost use Rattle.c6x_elf_headers.specs.Rules.{Passes};
ghost use Rattle.c6x_elf.specs.Parts.{are_within, fields_refusal, has_bytes, has_entries, has_target, is_linked, is_relocation_table, is_symbol_table, is_within, part_refusal, section_of, section_refusal, section_size, segment_of, segment_refusal};

use crate::section::Section;
use crate::segment::Segment;
use c6x_base::Bytes;
use c6x_base::limits::MOST_HELD_BYTES;
use c6x_elf_headers::abi::{SHT_DYNSYM, SHT_NOBITS, SHT_NULL, SHT_RELA, SHT_SYMTAB};
use c6x_elf_headers::{ElfError, ElfRule, SectionHead, SegmentHead, check};
use std::alloc::Global;

/// The segment of a program header, where those in front of it have `before` bytes together.
#[tactic(auto, unfolding(crate::specs::Parts::segment_of, crate::specs::Parts::segment_refusal))]
pub fn segment_in(
    alloc: Global,
    bytes: &[u8],
    before: u32,
    head: &SegmentHead,
) -> Result<Segment, ElfError>
    requires { head.now.at + 32 ≤ MOST_FILE_BYTES }
    ensures passes { Passes result (segment_refusal bytes.now before head.now) }
    ensures value { IfOk result (λ segment. segment ≡ segment_of bytes.now head.now) }
    ensures few { OnOk result (before + head.now.filesz ≤ MOST_HELD_BYTES) }
{
    check_part(bytes, before, head.offset, head.filesz, head.at + 4)?;
    Ok(Segment {
        kind: head.kind,
        vaddr: head.vaddr,
        memsz: head.memsz,
        flags: head.flags,
        align: head.align,
        bytes: Bytes::from_bytes(alloc, part(bytes, head.offset, head.filesz))?,
    })
}

/// The section of one of `count` section headers, where the parts in front of it have `before` bytes
/// together.
#[tactic(auto, unfolding(crate::specs::Parts::section_of, crate::specs::Parts::section_refusal))]
pub fn section_in(
    alloc: Global,
    bytes: &[u8],
    count: u16,
    before: u32,
    head: &SectionHead,
) -> Result<Section, ElfError>
    requires { head.now.at + 40 ≤ MOST_FILE_BYTES }
    ensures passes { Passes result (section_refusal bytes.now count before head.now) }
    ensures value { IfOk result (λ section. section ≡ section_of bytes.now head.now) }
    ensures few { OnOk result (before + section_size head.now ≤ MOST_HELD_BYTES) }
{
    check_fields(count, head)?;
    let size = section_size(head);
    check_part(bytes, before, head.offset, size, head.at + 16)?;
    Ok(Section {
        name: head.name,
        kind: head.kind,
        flags: head.flags,
        addr: head.addr,
        size: head.size,
        link: head.link,
        info: head.info,
        align: head.align,
        entsize: head.entsize,
        bytes: Bytes::from_bytes(alloc, part(bytes, head.offset, size))?,
    })
}

/// How many bytes of the file are a section's.
#[tactic(auto, unfolding(crate::specs::Parts::section_size))]
pub fn section_size(head: &SectionHead) -> u32
    ensures { result ≡ section_size head.now }
{
    if has_bytes(head.kind) { head.size } else { 0 }
}

/// Whether a section of this type has bytes in the file.
#[tactic(auto, unfolding(crate::specs::Parts::has_bytes))]
pub fn has_bytes(kind: u32) -> bool
    ensures { result ≡ has_bytes kind }
{
    kind != SHT_NULL && kind != SHT_NOBITS
}

/// Whether this is the type of a symbol table.
#[tactic(auto, unfolding(crate::specs::Parts::is_symbol_table))]
pub fn is_symbol_table(kind: u32) -> bool
    ensures { result ≡ is_symbol_table kind }
{
    kind == SHT_SYMTAB || kind == SHT_DYNSYM
}

/// Whether this is the type of a relocation table with addends.
#[tactic(auto, unfolding(crate::specs::Parts::is_relocation_table))]
pub fn is_relocation_table(kind: u32) -> bool
    ensures { result ≡ is_relocation_table kind }
{
    kind == SHT_RELA
}

/// Whether `count` headers of this size from `at` on lie in the file.
#[tactic(auto, unfolding(crate::specs::Parts::are_within))]
pub fn are_within(bytes: &[u8], at: u32, size: u16, count: u16) -> bool
    requires { size < 64 }
    ensures value { result ≡ are_within bytes.now at size count }
    ensures within { IsTrue result → 0 < count → at + size * count ≤ length bytes.now }
{
    count == 0 || at as usize + usize::from(size) * usize::from(count) <= bytes.len()
}

/// The fields of one of `count` section headers.
#[tactic(auto, unfolding(crate::specs::Parts::fields_refusal))]
fn check_fields(count: u16, head: &SectionHead) -> Result<(), ElfError>
    requires { head.now.at + 40 ≤ MOST_FILE_BYTES }
    ensures { Passes result (fields_refusal count head.now) }
{
    check(
        is_linked(count, head.kind, head.link),
        ElfRule::Index,
        head.at + 24,
    )?;
    check(
        has_target(count, head.kind, head.info),
        ElfRule::Index,
        head.at + 28,
    )?;
    check(
        has_entries(head.kind, head.size, head.entsize),
        ElfRule::EntrySize,
        head.at + 36,
    )
}

/// Whether a table is linked to one of `count` sections.
#[tactic(auto, unfolding(crate::specs::Parts::is_linked))]
fn is_linked(count: u16, kind: u32, link: u32) -> bool
    ensures { result ≡ is_linked count kind link }
{
    !(is_symbol_table(kind) || is_relocation_table(kind)) || link < u32::from(count)
}

/// Whether a relocation table changes one of `count` sections.
#[tactic(auto, unfolding(crate::specs::Parts::has_target))]
fn has_target(count: u16, kind: u32, info: u32) -> bool
    ensures { result ≡ has_target count kind info }
{
    !is_relocation_table(kind) || info < u32::from(count)
}

/// Whether a table has whole entries of their size.
#[tactic(auto, unfolding(crate::specs::Parts::has_entries))]
fn has_entries(kind: u32, size: u32, entsize: u32) -> bool
    ensures { result ≡ has_entries kind size entsize }
{
    if is_symbol_table(kind) {
        entsize == 16 && size % 16 == 0
    } else {
        !is_relocation_table(kind) || (entsize == 12 && size % 12 == 0)
    }
}

/// The bytes of a part lie in the file, and all up to it have no more than they may.
#[tactic(auto, unfolding(crate::specs::Parts::part_refusal))]
fn check_part(bytes: &[u8], before: u32, at: u32, size: u32, place: u32) -> Result<(), ElfError>
    ensures passes { Passes result (part_refusal bytes.now before at size place) }
    ensures within { OnOk result (IsTrue (is_within bytes.now at size)) }
    ensures few { OnOk result (before + size ≤ MOST_HELD_BYTES) }
{
    check(is_within(bytes, at, size), ElfRule::Short, place)?;
    check(
        u64::from(before) + u64::from(size) <= u64::from(MOST_HELD_BYTES),
        ElfRule::Large,
        place,
    )
}

/// Whether the `size` bytes from `at` on lie in the file.
#[tactic(auto, unfolding(crate::specs::Parts::is_within))]
fn is_within(bytes: &[u8], at: u32, size: u32) -> bool
    ensures { result ≡ is_within bytes.now at size }
{
    size == 0 || at as usize + size as usize <= bytes.len()
}

/// The `size` bytes from `at` on.
#[tactic(auto, unfolding(crate::specs::Parts::is_within))]
fn part(bytes: &[u8], at: u32, size: u32) -> &[u8]
    requires { IsTrue (is_within bytes.now at size) }
    ensures { result.now ≡ take size (drop at bytes.now) }
{
    if size == 0 {
        return &bytes[..0];
    }
    let rest = &bytes[at as usize..];
    &rest[..size as usize]
}
