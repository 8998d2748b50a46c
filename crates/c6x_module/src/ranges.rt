ghost use Rattle.std.specs.Prelude.{◌≡◌, ◌+◌, ◌^◌, ◌<◌, ◌≤◌, None, Some, IfOk, length};
ghost use Rattle.std.specs.List.{count_by, list_all};
ghost use Rattle.std.specs.Option.{MatchOption, option_copied};
ghost use Rattle.c6x_module.specs.Ranges.{AreRanges, fits_memory, first_where, has_room, is_load, is_range, is_text, ranges_in, ranges_of, share_none};
ghost use Rattle.c6x_module.specs.Refusals.{Answers};

use crate::module_error::ModuleError;
use crate::module_rule::ModuleRule;
use c6x_base::bits;
use c6x_base::limits::MOST_HELD_BYTES;
use c6x_elf::Segment;
use c6x_elf::abi::PT_LOAD;

/// The text and the data range of a file. L2 comes exactly where there are not just one of each that keep the rule.
#[tactic(auto, unfolding(crate::specs::Ranges::ranges_in))]
pub fn find_ranges(segments: &[Segment]) -> Result<(&Segment, &Segment), ModuleError>
    requires { length segments.now ≤ 64 }
    ensures read { Answers (λ two. (two.0.now, two.1.now)) result (ranges_in segments.now) }
    ensures kept { IfOk result (λ two. AreRanges two.0.now two.1.now) }
{
    match ranges_of(segments) {
        Some(two) => Ok(two),
        None => Err(ModuleError::Rule {
            rule: ModuleRule::Segments,
            number: count_loads(segments) as u32,
        }),
    }
}

/// The text and the data range, if there are just one of each that keep the rule.
#[tactic(auto, unfolding(crate::specs::Ranges::ranges_of), using(crate::proofs::RangeWalks::are_ranges))]
fn ranges_of(segments: &[Segment]) -> Option<(&Segment, &Segment)>
    ensures read { MatchOption result (ranges_of segments.now ≡ None) (λ two. ranges_of segments.now ≡ Some (two.0.now, two.1.now)) }
    ensures kept { MatchOption result (Unit {0}) (λ two. AreRanges two.0.now two.1.now) }
{
    if count_texts(segments) != 1 || count_ranges(segments) != 1 || !all_fit(segments) {
        return None;
    }
    let text = first_text(segments)?;
    let range = first_range(segments)?;
    if share_none(text, range) {
        Some((text, range))
    } else {
        None
    }
}

/// The segment is loaded.
fn is_load(segment: &Segment) -> bool
    ensures { result ≡ is_load segment.now }
{
    segment.kind == PT_LOAD
}

/// The segment may be run and not written.
pub fn is_text(segment: &Segment) -> bool
    ensures { result ≡ is_text segment.now }
{
    is_load(segment) && bits(segment.flags, 0, 1) == 1 && bits(segment.flags, 1, 1) == 0
}

/// The segment may be written and not run.
pub fn is_range(segment: &Segment) -> bool
    ensures { result ≡ is_range segment.now }
{
    is_load(segment) && bits(segment.flags, 0, 1) == 0 && bits(segment.flags, 1, 1) == 1
}

/// The segment has room for its bytes, is not too large and ends below 2^32.
#[tactic(auto, unfolding(crate::specs::Ranges::has_room))]
fn has_room(segment: &Segment) -> bool
    ensures { result ≡ has_room segment.now }
{
    segment.bytes.as_bytes().len() <= segment.memsz as usize
        && segment.memsz <= MOST_HELD_BYTES
        && u64::from(segment.vaddr) + u64::from(segment.memsz) < 1 << 32
}

/// A load segment has room, and has no memory if it is none of the two.
#[tactic(auto, unfolding(crate::specs::Ranges::fits_memory))]
fn fits_memory(segment: &Segment) -> bool
    ensures { result ≡ fits_memory segment.now }
{
    !is_load(segment)
        || ((is_text(segment) || is_range(segment) || segment.memsz == 0) && has_room(segment))
}

/// The segments share no address.
#[tactic(auto, unfolding(crate::specs::Ranges::share_none))]
fn share_none(a: &Segment, b: &Segment) -> bool
    ensures { result ≡ share_none a.now b.now }
{
    a.memsz == 0
        || b.memsz == 0
        || u64::from(a.vaddr) + u64::from(a.memsz) <= u64::from(b.vaddr)
        || u64::from(b.vaddr) + u64::from(b.memsz) <= u64::from(a.vaddr)
}

/// How many segments are loaded.
fn count_loads(segments: &[Segment]) -> usize
    ensures value { result ≡ count_by is_load segments.now }
    ensures few { result ≤ length segments.now }
{
    segments.iter().filter(|segment| is_load(segment)).count()
}

/// How many segments may be run and not written.
fn count_texts(segments: &[Segment]) -> usize
    ensures { result ≡ count_by is_text segments.now }
{
    segments.iter().filter(|segment| is_text(segment)).count()
}

/// How many segments may be written and not run.
fn count_ranges(segments: &[Segment]) -> usize
    ensures { result ≡ count_by is_range segments.now }
{
    segments.iter().filter(|segment| is_range(segment)).count()
}

/// Every segment fits memory.
fn all_fit(segments: &[Segment]) -> bool
    ensures { result ≡ list_all fits_memory segments.now }
{
    segments.iter().all(|segment| fits_memory(segment))
}

/// The first text.
#[tactic(auto, using(crate::proofs::RangeWalks::first_text_more))]
fn first_text(segments: &[Segment]) -> Option<&Segment>
    ensures { option_copied result ≡ first_where is_text segments.now }
{
    for segment in segments {
        if is_text(segment) {
            return Some(segment);
        }
    }
    None
}

/// The first data range.
#[tactic(auto, using(crate::proofs::RangeWalks::first_range_more))]
fn first_range(segments: &[Segment]) -> Option<&Segment>
    ensures { option_copied result ≡ first_where is_range segments.now }
{
    for segment in segments {
        if is_range(segment) {
            return Some(segment);
        }
    }
    None
}
