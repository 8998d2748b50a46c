ghost use Rattle.std.specs.Prelude.{◌≡◌, ◌+◌, ◌≤◌, ◌<◌, ◌^◌, [], length, IsTrue, IfOk, IfSome, IfNone};
ghost use Rattle.c6x_base.specs.declared.limits.TheConstants.{MOST_FILE_BYTES};
ghost use Rattle.c6x_elf.specs.Writing.{AreWithin, end_of, home_of, is_inside, offset_end, offset_of, offsets, offsets_end, spot_of, spots, spots_end, step_of};

use crate::parts::has_bytes;
use crate::section::Section;
use crate::segment::Segment;
use crate::spot::Spot;
use c6x_base::limits::MOST_FILE_BYTES;
use c6x_base::{least_multiple, least_place};
use c6x_elf_headers::abi::PT_LOAD;
use std::alloc::{AllocError, Global};

/// The spots of segments, of which the first may begin at `start`, and the place behind them; None
/// exactly where that place is past the most bytes of a file.
pub fn place_segments(
    alloc: Global,
    segments: &[Segment],
    start: u32,
) -> Result<Option<(Vec<Spot>, u32)>, AllocError>
    requires { start ≤ MOST_FILE_BYTES }
    ensures spots { IfOk result (λ made. IfSome made (λ m. m.0.items ≡ spots [] [] start segments.now)) }
    ensures end { IfOk result (λ made. IfSome made (λ m. m.1 ≡ spots_end [] [] start segments.now)) }
    ensures few { IfOk result (λ made. IfSome made (λ m. m.1 ≤ MOST_FILE_BYTES)) }
    ensures within { IfOk result (λ made. IfSome made (λ m. AreWithin segments.now m.0.items)) }
    ensures past { IfOk result (λ made. IfNone made (MOST_FILE_BYTES < spots_end [] [] start segments.now)) }
{
    let mut had = Vec::new(alloc);
    let mut from = start;
    for (k, segment) in segments.iter().enumerate() {
        match spot_for(&segments[..k], &had, from, segment) {
            Some(spot) => {
                had.push(spot)?;
                from = end_of(spot, from, segment);
            }
            None => return Ok(None),
        }
    }
    Ok(Some((had, from)))
}

/// The place behind what has been written, after the segment at its spot.
#[tactic(auto, unfolding(crate::specs::Writing::end_of))]
fn end_of(spot: Spot, from: u32, segment: &Segment) -> u32
    requires { end_of spot from segment.now ≤ MOST_FILE_BYTES }
    ensures { result ≡ end_of spot from segment.now }
{
    if spot.fresh {
        spot.at + segment.bytes.as_bytes().len() as u32
    } else {
        from
    }
}

/// A segment's spot behind earlier ones, of which each has its spot; None exactly where it ends past the
/// most bytes of a file.
#[tactic(auto, unfolding(crate::specs::Writing::spot_of, crate::specs::Writing::end_of))]
fn spot_for(earlier: &[Segment], had: &[Spot], from: u32, segment: &Segment) -> Option<Spot>
    requires same { length had.now ≡ length earlier.now }
    requires within { AreWithin earlier.now had.now }
    requires few { from ≤ MOST_FILE_BYTES }
    ensures spot { IfSome result (λ spot. spot ≡ spot_of earlier.now had.now from segment.now) }
    ensures within { IfSome result (λ spot. spot.at + length segment.now.bytes ≤ MOST_FILE_BYTES) }
    ensures end { IfSome result (λ spot. end_of spot from segment.now ≤ MOST_FILE_BYTES) }
    ensures past { IfNone result (MOST_FILE_BYTES < end_of (spot_of earlier.now had.now from segment.now) from segment.now) }
{
    match home_of(segment, earlier, had) {
        Some(at) => Some(Spot { at, fresh: false }),
        None => {
            let at = least_place(u64::from(from), segment.vaddr, step_of(segment.align));
            let size = segment.bytes.as_bytes().len() as u64;
            if at + size > u64::from(MOST_FILE_BYTES) {
                return None;
            }
            Some(Spot {
                at: at as u32,
                fresh: true,
            })
        }
    }
}

/// Where the first of the earlier segments has the segment's bytes already, if one does.
fn home_of(segment: &Segment, earlier: &[Segment], had: &[Spot]) -> Option<u32>
    requires same { length had.now ≡ length earlier.now }
    requires within { AreWithin earlier.now had.now }
    ensures value { result ≡ home_of segment.now earlier.now had.now }
    ensures within { IfSome result (λ at. at + length segment.now.bytes ≤ MOST_FILE_BYTES) }
{
    for (k, other) in earlier.iter().enumerate() {
        if is_inside(segment, other) {
            return Some(had[k].at + (segment.vaddr - other.vaddr));
        }
    }
    None
}

/// Whether a segment has bytes, and they stand at their addresses among those of another one that is
/// loaded.
#[tactic(auto, unfolding(crate::specs::Writing::is_inside))]
fn is_inside(segment: &Segment, other: &Segment) -> bool
    ensures value { result ≡ is_inside segment.now other.now }
    ensures from { IsTrue result → other.now.vaddr ≤ segment.now.vaddr }
    ensures to { IsTrue result → segment.now.vaddr + length segment.now.bytes ≤ other.now.vaddr + length other.now.bytes }
{
    let bytes = segment.bytes.as_bytes();
    let others = other.bytes.as_bytes();
    if other.kind != PT_LOAD || bytes.is_empty() || segment.vaddr < other.vaddr {
        return false;
    }
    let skip = (segment.vaddr - other.vaddr) as usize;
    if others.len() < skip + bytes.len() {
        return false;
    }
    let part = &others[skip..];
    &part[..bytes.len()] == bytes
}

/// What a segment's offset and address are congruent by.
#[tactic(auto, unfolding(crate::specs::Writing::step_of))]
fn step_of(align: u32) -> u32
    ensures value { result ≡ step_of align }
    ensures some { 4 ≤ result }
{
    if align.is_power_of_two() {
        align.max(4)
    } else {
        4
    }
}

/// The offsets of sections behind `from`, and the place behind them; None exactly where that place is past
/// the most bytes of a file.
pub fn place_sections(
    alloc: Global,
    sections: &[Section],
    from: u32,
) -> Result<Option<(Vec<u32>, u32)>, AllocError>
    requires { from ≤ MOST_FILE_BYTES }
    ensures offsets { IfOk result (λ made. IfSome made (λ m. m.0.items ≡ offsets from sections.now)) }
    ensures end { IfOk result (λ made. IfSome made (λ m. m.1 ≡ offsets_end from sections.now)) }
    ensures few { IfOk result (λ made. IfSome made (λ m. m.1 ≤ MOST_FILE_BYTES)) }
    ensures past { IfOk result (λ made. IfNone made (MOST_FILE_BYTES < offsets_end from sections.now)) }
{
    let mut made = Vec::new(alloc);
    let mut at = from;
    for section in sections {
        let end = offset_end(at, section);
        if end > u64::from(MOST_FILE_BYTES) {
            return Ok(None);
        }
        made.push(offset_of(at, section))?;
        at = end as u32;
    }
    Ok(Some((made, at)))
}

/// Where a section's bytes begin.
#[tactic(auto, unfolding(crate::specs::Writing::offset_of, crate::specs::Writing::offset_end))]
fn offset_of(from: u32, section: &Section) -> u32
    requires { offset_end from section.now ≤ MOST_FILE_BYTES }
    ensures { result ≡ offset_of from section.now }
{
    if has_bytes(section.kind) {
        least_multiple(u64::from(from), section.align.max(1)) as u32
    } else {
        0
    }
}

/// The place behind a section's bytes.
#[tactic(auto, unfolding(crate::specs::Writing::offset_end))]
fn offset_end(from: u32, section: &Section) -> u64
    ensures { result ≡ offset_end from section.now }
{
    if has_bytes(section.kind) {
        least_multiple(u64::from(from), section.align.max(1))
            + section.bytes.as_bytes().len() as u64
    } else {
        u64::from(from)
    }
}
