ghost use Rattle.std.specs.Prelude.{◌≡◌, false, ◌+◌, ◌*◌, ◌<◌, ◌≤◌, length, map, sum_by, IfOk, OnOk};
ghost use Rattle.c6x_base.specs.declared.limits.TheConstants.{MOST_FILE_BYTES, MOST_HELD_BYTES};
ghost use Rattle.c6x_elf_headers.specs.Heads.{AreSectionHeadsNear, AreSegmentHeadsNear, file_head, is_big};
ghost use Rattle.c6x_elf_headers.specs.Rules.{along_parts, Passes};
ghost use Rattle.c6x_elf.specs.Form.{HasReadForm};
ghost use Rattle.c6x_elf.specs.Parts.{section_of, section_refusal, section_size, segment_of, segment_refusal, segment_size};
ghost use Rattle.c6x_elf.specs.Reading.{file_of, file_with, names_refusal, parts_refusal, refusal_of, section_heads_of, sections_of, sections_refusal, segment_heads_of, segments_refusal, segments_total, tables_refusal};

use crate::file::File;
use crate::names::check_names;
use crate::parts::{are_within, section_in, section_size, segment_in};
use crate::section::Section;
use crate::segment::Segment;
use c6x_base::Row;
use c6x_elf_headers::{
    ElfError, ElfRule, FileHead, SectionHead, SegmentHead, check, is_big, read_header,
    read_section_heads, read_segment_heads,
};
use std::alloc::Global;

/// The segments of program headers, with the number of their bytes together.
#[tactic(auto, using(crate::proofs::Walks::segments_drop, crate::proofs::Walks::segments_all))]
fn segments_along(
    alloc: Global,
    bytes: &[u8],
    heads: &[SegmentHead],
) -> Result<(Vec<Segment>, u32), ElfError>
    requires { AreSegmentHeadsNear heads.now }
    ensures passes { Passes result (along_parts segment_size (segment_refusal bytes.now) 0 heads.now) }
    ensures value { IfOk result (λ made. made.0.items ≡ map (segment_of bytes.now) heads.now) }
    ensures total { IfOk result (λ made. made.1 ≡ sum_by segment_size heads.now) }
    ensures few { IfOk result (λ made. made.1 ≤ MOST_HELD_BYTES) }
{
    let mut segments = Vec::new(alloc);
    let mut total = 0;
    for head in heads {
        segments.push(segment_in(alloc, bytes, total, head)?)?;
        total += head.filesz;
    }
    Ok((segments, total))
}

/// The sections of section headers, where the segments have `before` bytes together.
#[tactic(auto, using(crate::proofs::Walks::sections_drop, crate::proofs::Walks::sections_all))]
fn sections_along(
    alloc: Global,
    bytes: &[u8],
    count: u16,
    before: u32,
    heads: &[SectionHead],
) -> Result<Vec<Section>, ElfError>
    requires near { AreSectionHeadsNear heads.now }
    requires few { before ≤ MOST_HELD_BYTES }
    ensures passes { Passes result (along_parts section_size (section_refusal bytes.now count) before heads.now) }
    ensures value { IfOk result (λ sections. sections.items ≡ map (section_of bytes.now) heads.now) }
{
    let mut sections = Vec::new(alloc);
    let mut total = before;
    for head in heads {
        sections.push(section_in(alloc, bytes, count, total, head)?)?;
        total += section_size(head);
    }
    Ok(sections)
}

/// The segments that a file header names, with the number of their bytes together.
#[tactic(auto, unfolding(crate::specs::Reading::segments_refusal, crate::specs::Reading::segments_total, crate::specs::Reading::segment_heads_of))]
fn read_segments(
    alloc: Global,
    big: bool,
    bytes: &[u8],
    head: &FileHead,
) -> Result<(Vec<Segment>, u32), ElfError>
    requires short { length bytes.now ≤ MOST_FILE_BYTES }
    ensures passes { Passes result (segments_refusal big bytes.now head.now) }
    ensures value { IfOk result (λ made. made.0.items ≡ map (segment_of bytes.now) (segment_heads_of big bytes.now head.now)) }
    ensures total { IfOk result (λ made. made.1 ≡ segments_total big bytes.now head.now) }
    ensures few { IfOk result (λ made. made.1 ≤ MOST_HELD_BYTES) }
{
    let count = head.segment_count;
    check(
        are_within(bytes, head.segments_at, 32, count),
        ElfRule::Short,
        28,
    )?;
    let heads = read_segment_heads(alloc, big, bytes, head.segments_at, count)?;
    segments_along(alloc, bytes, &heads)
}

/// The headers of the sections, and the sections, where the segments have `before` bytes together.
#[tactic(auto, unfolding(crate::specs::Reading::sections_refusal, crate::specs::Reading::sections_of, crate::specs::Reading::section_heads_of))]
fn read_sections(
    alloc: Global,
    big: bool,
    bytes: &[u8],
    head: &FileHead,
    before: u32,
) -> Result<(Vec<SectionHead>, Vec<Section>), ElfError>
    requires total { before ≡ segments_total big bytes.now head.now }
    requires few { before ≤ MOST_HELD_BYTES }
    requires short { length bytes.now ≤ MOST_FILE_BYTES }
    ensures passes { Passes result (sections_refusal big bytes.now head.now) }
    ensures heads { IfOk result (λ made. made.0.items ≡ section_heads_of big bytes.now head.now) }
    ensures value { IfOk result (λ made. made.1.items ≡ sections_of big bytes.now head.now) }
{
    let count = head.section_count;
    check(
        are_within(bytes, head.sections_at, 40, count),
        ElfRule::Short,
        32,
    )?;
    let heads = read_section_heads(alloc, big, bytes, head.sections_at, count)?;
    let sections = sections_along(alloc, bytes, count, before, &heads)?;
    Ok((heads, sections))
}

/// The sections that a file header names, with the rules of their names and entries.
#[tactic(auto, unfolding(crate::specs::Reading::tables_refusal, crate::specs::Reading::names_refusal), using(crate::proofs::Placed::sections_placed, crate::proofs::Placed::sections_same))]
fn read_tables(
    alloc: Global,
    big: bool,
    bytes: &[u8],
    head: &FileHead,
    before: u32,
) -> Result<Vec<Section>, ElfError>
    requires total { before ≡ segments_total big bytes.now head.now }
    requires few { before ≤ MOST_HELD_BYTES }
    requires short { length bytes.now ≤ MOST_FILE_BYTES }
    ensures passes { Passes result (tables_refusal big bytes.now head.now) }
    ensures value { IfOk result (λ sections. sections.items ≡ sections_of big bytes.now head.now) }
{
    let (heads, sections) = read_sections(alloc, big, bytes, head, before)?;
    check_names(alloc, big, head.names, &heads, &sections)?;
    Ok(sections)
}

/// The parts that a file header names.
#[tactic(auto, unfolding(crate::specs::Reading::parts_refusal, crate::specs::Reading::file_with))]
fn read_parts(alloc: Global, big: bool, bytes: &[u8], head: &FileHead) -> Result<File, ElfError>
    requires { length bytes.now ≤ MOST_FILE_BYTES }
    ensures passes { Passes result (parts_refusal big bytes.now head.now) }
    ensures value { IfOk result (λ file. file ≡ file_with big bytes.now head.now) }
{
    let (segments, total) = read_segments(alloc, big, bytes, head)?;
    let sections = read_tables(alloc, big, bytes, head, total)?;
    Ok(File {
        kind: head.kind,
        entry: head.entry,
        flags: head.flags,
        names: head.names,
        segments: Row::of(segments),
        sections: Row::of(sections),
    })
}

/// The value that the bytes of a file stand for, or the first broken rule in reading order with its place.
#[tactic(auto, unfolding(crate::specs::Reading::refusal_of, crate::specs::Reading::file_of))]
pub fn read_file(alloc: Global, bytes: &[u8]) -> Result<File, ElfError>
    ensures passes { Passes result (refusal_of bytes.now) }
    ensures value { IfOk result (λ file. file ≡ file_of bytes.now) }
    ensures form { IfOk result (HasReadForm false) }
{
    let head = read_header(bytes)?;
    let file = read_parts(alloc, is_big(bytes), bytes, &head)?;
    Ok(file)
}
