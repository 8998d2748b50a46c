ghost use Rattle.std.specs.Prelude.{◌≡◌, ◌+◌, ◌*◌, ◌≤◌, ◌<◌, ◌++◌, [], None, false, List, length, map, All, IsTrue, IfOk, IfErr, IfNone, IfSome, OnOk, ◌↔◌, ◌^◌, vec_len, ◌==◌, if◌then◌else◌};
ghost use Rattle.c6x_base.specs.declared.limits.TheConstants.{MOST_FILE_BYTES, MOST_SECTIONS, MOST_SEGMENTS};
ghost use Rattle.c6x_spec.specs.Rounded.{rounded};
ghost use Rattle.c6x_elf_headers.specs.HeadRows.{FileFits, SectionsFit, SegmentsFit, file_row, section_rows, segment_rows};
ghost use Rattle.c6x_elf_headers.specs.Laid.{InOrder, Part, laid};
ghost use Rattle.c6x_elf.specs.Form.{HasReadForm, IsHeld, IsTidy};
ghost use Rattle.c6x_elf.specs.Parts.{has_bytes};
ghost use Rattle.c6x_elf.specs.Reading.{file_of, refusal_of};
ghost use Rattle.c6x_elf.specs.Writing.{AreWithin, FileSizes, front_part, head_of, offsets_of, section_head_at, sections_at, spots_of, start_of, table_parts, written_size, section_heads_at, section_parts, segment_head_at, segment_heads_at, segment_parts, with_section, with_segment, written};

use crate::file::File;
use crate::parts::has_bytes;
use crate::placing::{place_sections, place_segments};
use crate::section::Section;
use crate::segment::Segment;
use crate::spot::Spot;
use c6x_base::limits::MOST_FILE_BYTES;
use c6x_base::{Bytes, least_multiple};
use c6x_elf_headers::abi::PT_LOAD;
use c6x_elf_headers::{
    ElfError, FileHead, SectionHead, SegmentHead, pad, put_file_head, put_part, put_section_head,
    put_segment_head,
};
use std::alloc::{AllocError, Global};

/// Puts program headers from `at` on.
#[tactic(auto, unfolding(c6x_elf_headers::specs::HeadRows::segment_rows))]
fn put_segment_heads(
    out: &mut Vec<u8>,
    at: u32,
    segments: &[Segment],
    spots: &[Spot],
) -> Result<(), AllocError>
    requires same { length spots.now ≡ length segments.now }
    requires near { at + 32 * length segments.now ≤ MOST_FILE_BYTES }
    requires within { AreWithin segments.now spots.now }
    ensures rows { OnOk result (out.new.items ≡ out.old.items ++ segment_rows false (segment_heads_at at 0 segments.now spots.now)) }
    ensures end { OnOk result (vec_len out.new ≡ vec_len out.old + 32 * length segments.now) }
    ensures fit { OnOk result (SegmentsFit (segment_heads_at at 0 segments.now spots.now)) }
{
    for (k, segment) in segments.iter().enumerate() {
        let head = segment_head(at + 32 * k as u32, segment, spots[k]);
        put_segment_head(out, false, &head)?;
    }
    Ok(())
}

/// Puts section headers from `at` on.
#[tactic(auto, unfolding(c6x_elf_headers::specs::HeadRows::section_rows))]
fn put_section_heads(
    out: &mut Vec<u8>,
    at: u32,
    sections: &[Section],
    offsets: &[u32],
) -> Result<(), AllocError>
    requires same { length offsets.now ≡ length sections.now }
    requires near { at + 40 * length sections.now ≤ MOST_FILE_BYTES }
    ensures rows { OnOk result (out.new.items ≡ out.old.items ++ section_rows false (section_heads_at at 0 sections.now offsets.now)) }
    ensures end { OnOk result (vec_len out.new ≡ vec_len out.old + 40 * length sections.now) }
    ensures fit { OnOk result (SectionsFit (section_heads_at at 0 sections.now offsets.now)) }
{
    for (k, section) in sections.iter().enumerate() {
        let head = section_head(at + 40 * k as u32, section, offsets[k]);
        put_section_head(out, false, &head)?;
    }
    Ok(())
}

/// The program header of a segment at its spot.
#[tactic(auto, unfolding(crate::specs::Writing::segment_head_at))]
fn segment_head(at: u32, segment: &Segment, spot: Spot) -> SegmentHead
    requires { length segment.now.bytes ≤ MOST_FILE_BYTES }
    ensures { result ≡ segment_head_at at segment.now spot }
{
    SegmentHead {
        at,
        kind: segment.kind,
        offset: spot.at,
        vaddr: segment.vaddr,
        filesz: segment.bytes.as_bytes().len() as u32,
        memsz: segment.memsz,
        flags: segment.flags,
        align: segment.align,
    }
}

/// The section header of a section at its offset.
#[tactic(auto, unfolding(crate::specs::Writing::section_head_at))]
fn section_head(at: u32, section: &Section, offset: u32) -> SectionHead
    ensures { result ≡ section_head_at at section.now offset }
{
    SectionHead {
        at,
        name: section.name,
        kind: section.kind,
        flags: section.flags,
        addr: section.addr,
        offset,
        size: section.size,
        link: section.link,
        info: section.info,
        align: section.align,
        entsize: section.entsize,
    }
}

/// Puts the segments that have spots of their own.
fn put_segments(out: &mut Vec<u8>, segments: &[Segment], spots: &[Spot]) -> Result<(), AllocError>
    requires same { length spots.now ≡ length segments.now }
    requires order { InOrder (vec_len out.old) (segment_parts segments.now spots.now) }
    ensures laid { OnOk result ((rest : List Part) → out.new.items ++ laid (vec_len out.new) rest ≡ out.old.items ++ laid (vec_len out.old) (segment_parts segments.now spots.now ++ rest)) }
    ensures orders { OnOk result ((rest : List Part) → InOrder (vec_len out.old) (segment_parts segments.now spots.now ++ rest) → InOrder (vec_len out.new) rest) }
{
    for (k, segment) in segments.iter().enumerate() {
        put_segment(out, segment, spots[k])?;
    }
    Ok(())
}

/// Puts a segment's bytes, if they are not in the file already.
#[tactic(auto, unfolding(crate::specs::Writing::with_segment))]
fn put_segment(out: &mut Vec<u8>, segment: &Segment, spot: Spot) -> Result<(), AllocError>
    requires { InOrder (vec_len out.old) (with_segment segment.now spot []) }
    ensures laid { OnOk result ((rest : List Part) → out.new.items ++ laid (vec_len out.new) rest ≡ out.old.items ++ laid (vec_len out.old) (with_segment segment.now spot rest)) }
    ensures order { OnOk result ((rest : List Part) → InOrder (vec_len out.old) (with_segment segment.now spot rest) → InOrder (vec_len out.new) rest) }
{
    if spot.fresh {
        put_part(out, spot.at as usize, segment.bytes.as_bytes())
    } else {
        Ok(())
    }
}

/// Puts the sections that have bytes.
fn put_sections(out: &mut Vec<u8>, sections: &[Section], offsets: &[u32]) -> Result<(), AllocError>
    requires same { length offsets.now ≡ length sections.now }
    requires order { InOrder (vec_len out.old) (section_parts sections.now offsets.now) }
    ensures laid { OnOk result ((rest : List Part) → out.new.items ++ laid (vec_len out.new) rest ≡ out.old.items ++ laid (vec_len out.old) (section_parts sections.now offsets.now ++ rest)) }
    ensures orders { OnOk result ((rest : List Part) → InOrder (vec_len out.old) (section_parts sections.now offsets.now ++ rest) → InOrder (vec_len out.new) rest) }
{
    for (k, section) in sections.iter().enumerate() {
        put_section(out, section, offsets[k])?;
    }
    Ok(())
}

/// Puts a section's bytes, if it has any.
#[tactic(auto, unfolding(crate::specs::Writing::with_section))]
fn put_section(out: &mut Vec<u8>, section: &Section, offset: u32) -> Result<(), AllocError>
    requires { InOrder (vec_len out.old) (with_section section.now offset []) }
    ensures laid { OnOk result ((rest : List Part) → out.new.items ++ laid (vec_len out.new) rest ≡ out.old.items ++ laid (vec_len out.old) (with_section section.now offset rest)) }
    ensures order { OnOk result ((rest : List Part) → InOrder (vec_len out.old) (with_section section.now offset rest) → InOrder (vec_len out.new) rest) }
{
    if has_bytes(section.kind) {
        put_part(out, offset as usize, section.bytes.as_bytes())
    } else {
        Ok(())
    }
}

/// Where the parts of a file are written.
#[derive(Drop)]
struct Layout {
    spots: Vec<Spot>,
    offsets: Vec<u32>,
    /// Where the section headers begin; 0 where there are none.
    sections_at: u32,
}

/// The places of a file's parts; None exactly where its written form is longer than a file may be.
#[tactic(auto, unfolding(crate::specs::Writing::written_size, crate::specs::Writing::sections_at), using(crate::proofs::Spots::offsets_end_above, crate::proofs::Spots::rounded_above))]
fn lay_out(alloc: Global, file: &File) -> Result<Option<Layout>, AllocError>
    requires few { length file.now.segments ≤ MOST_SEGMENTS }
    requires few_sections { length file.now.sections ≤ MOST_SECTIONS }
    ensures spots { IfOk result (λ made. IfSome made (λ layout. layout.spots.items ≡ spots_of file.now)) }
    ensures offsets { IfOk result (λ made. IfSome made (λ layout. layout.offsets.items ≡ offsets_of file.now)) }
    ensures table { IfOk result (λ made. IfSome made (λ layout. layout.sections_at ≡ sections_at file.now)) }
    ensures within { IfOk result (λ made. IfSome made (λ layout. AreWithin file.now.segments layout.spots.items)) }
    ensures small { IfOk result (λ made. IfSome made (λ _. written_size file.now ≤ MOST_FILE_BYTES)) }
    ensures past { IfOk result (λ made. IfNone made (MOST_FILE_BYTES < written_size file.now)) }
{
    let segments = file.segments.as_slice();
    let sections = file.sections.as_slice();
    let start = 52 + 32 * segments.len() as u32;
    let Some((spots, end)) = place_segments(alloc, segments, start)? else {
        return Ok(None);
    };
    let Some((offsets, end)) = place_sections(alloc, sections, end)? else {
        return Ok(None);
    };
    let at = table_at(sections.len(), end);
    if sections.len() > 0 && at + 40 * sections.len() as u64 > u64::from(MOST_FILE_BYTES) {
        return Ok(None);
    }
    Ok(Some(Layout {
        spots,
        offsets,
        sections_at: at as u32,
    }))
}

/// Where the headers of so many sections begin behind `end`; 0 where there are none.
fn table_at(count: usize, end: u32) -> u64
    ensures place { result ≡ (if count == 0 then 0 else rounded end 4) }
    ensures small { result < 2 ^ 33 }
{
    if count == 0 {
        0
    } else {
        least_multiple(u64::from(end), 4)
    }
}

/// Whether a file that has read form is tidy: its loaded segments have memory for their bytes, and its
/// written form is no longer than a file may be.
pub fn is_tidy(alloc: Global, file: &File) -> Result<bool, AllocError>
    requires { HasReadForm false file.now }
    ensures tidy { IfOk result (λ tidy. IsTrue tidy → IsTidy false file.now) }
    ensures exact { IfOk result (λ tidy. IsTidy false file.now → IsTrue tidy) }
{
    if !file.segments.as_slice().iter().all(is_held) {
        return Ok(false);
    }
    Ok(lay_out(alloc, file)?.is_some())
}

/// Whether a loaded segment has memory for its bytes.
fn is_held(segment: &Segment) -> bool
    ensures { IsTrue result ↔ IsHeld segment.now }
{
    segment.kind != PT_LOAD || segment.bytes.as_bytes().len() <= segment.memsz as usize
}

/// Puts the file header and the program headers into an empty vector.
#[tactic(auto, unfolding(crate::specs::Writing::front_part))]
fn put_front(out: &mut Vec<u8>, file: &File, layout: &Layout) -> Result<(), AllocError>
    requires empty { out.old.items ≡ [] }
    requires tidy { IsTidy false file.now }
    requires spots { layout.now.spots.items ≡ spots_of file.now }
    requires table { layout.now.sections_at ≡ sections_at file.now }
    requires within { AreWithin file.now.segments layout.now.spots.items }
    ensures row { OnOk result (out.new.items ≡ (front_part false file.now).bytes) }
    ensures end { OnOk result (vec_len out.new ≡ start_of file.now) }
    ensures head_fits { OnOk result (FileFits (head_of file.now)) }
    ensures segments_fit { OnOk result (SegmentsFit (segment_heads_at 52 0 file.now.segments (spots_of file.now))) }
{
    let segments = file.segments.as_slice();
    let head = file_head(file, layout.sections_at);
    put_file_head(out, false, &head)?;
    put_segment_heads(out, 52, segments, &layout.spots)
}

/// The file header.
#[tactic(auto, unfolding(crate::specs::Writing::head_of))]
fn file_head(file: &File, at: u32) -> FileHead
    requires segments { length file.now.segments ≤ MOST_SEGMENTS }
    requires sections { length file.now.sections ≤ MOST_SECTIONS }
    requires table { at ≡ sections_at file.now }
    ensures { result ≡ head_of file.now }
{
    let segment_count = file.segments.as_slice().len();
    FileHead {
        kind: file.kind,
        entry: file.entry,
        segments_at: if segment_count == 0 { 0 } else { 52 },
        sections_at: at,
        flags: file.flags,
        segment_count: segment_count as u16,
        section_count: file.sections.as_slice().len() as u16,
        names: file.names,
    }
}

/// Puts the section headers, if there are any.
#[tactic(auto, unfolding(crate::specs::Writing::table_parts, crate::specs::Writing::written_size))]
fn put_table(out: &mut Vec<u8>, file: &File, layout: &Layout) -> Result<(), AllocError>
    requires order { InOrder (vec_len out.old) (table_parts false file.now) }
    requires small { written_size file.now ≤ MOST_FILE_BYTES }
    requires offsets { layout.now.offsets.items ≡ offsets_of file.now }
    requires table { layout.now.sections_at ≡ sections_at file.now }
    ensures laid { OnOk result (out.new.items ≡ out.old.items ++ laid (vec_len out.old) (table_parts false file.now)) }
    ensures fit { OnOk result (SectionsFit (section_heads_at (sections_at file.now) 0 file.now.sections (offsets_of file.now))) }
{
    let sections = file.sections.as_slice();
    if sections.is_empty() {
        return Ok(());
    }
    pad(out, layout.sections_at as usize)?;
    put_section_heads(out, layout.sections_at, sections, &layout.offsets)
}

/// Puts all parts of a file into an empty vector.
fn put_file(out: &mut Vec<u8>, file: &File, layout: &Layout) -> Result<(), AllocError>
    requires empty { out.old.items ≡ [] }
    requires tidy { IsTidy false file.now }
    requires spots { layout.now.spots.items ≡ spots_of file.now }
    requires offsets { layout.now.offsets.items ≡ offsets_of file.now }
    requires table { layout.now.sections_at ≡ sections_at file.now }
    requires within { AreWithin file.now.segments layout.now.spots.items }
    ensures written { OnOk result (out.new.items ≡ written false file.now) }
    ensures fit { OnOk result (FileSizes file.now) }
{
    put_front(out, file, layout)?;
    put_segments(out, file.segments.as_slice(), &layout.spots)?;
    put_sections(out, file.sections.as_slice(), &layout.offsets)?;
    put_table(out, file, layout)?;
    Ok(())
}

/// The written form of a tidy file, which stands for the file: reading it gives the file again.
pub fn write_file(alloc: Global, file: &File) -> Result<Bytes, ElfError>
    requires { IsTidy false file.now }
    ensures written { IfOk result (λ bytes. bytes ≡ written false file.now) }
    ensures kept { IfOk result (λ bytes. refusal_of bytes ≡ None) }
    ensures read_back { IfOk result (λ bytes. file_of bytes ≡ file.now) }
    ensures memory { IfErr result (λ e. e ≡ ElfError.NoMemory) }
{
    let Some(layout) = lay_out(alloc, file)? else {
        unreachable!()
    };
    let mut out = Vec::new(alloc);
    put_file(&mut out, file, &layout)?;
    Ok(Bytes::of(out))
}
