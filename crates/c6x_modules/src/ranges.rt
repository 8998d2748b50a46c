ghost use Rattle.std.specs.Prelude.{◌≡◌, IsOk, Ok, Some, if◌then◌else◌};
ghost use Rattle.c6x_elf.specs.declared.segment.Segment.{Segment as Part};
ghost use Rattle.c6x_module.specs.Ranges.{first_where, is_range as writes, is_text as runs, ranges_in};

use c6x_elf::Segment;
use c6x_module::{is_range, is_text};

/// The text and the data range, of which nothing is copied. The other segments are dropped.
#[tactic(auto, using(crate::proofs::Firsts::ranges_found, crate::proofs::Firsts::text_found, crate::proofs::Firsts::range_found))]
pub fn take_ranges(segments: Vec<Segment>) -> (Segment, Segment)
    requires { IsOk (ranges_in segments.items) }
    ensures { ranges_in segments.items ≡ Ok (result.0, result.1) }
{
    let (text, range) = first_two(segments);
    (text.unwrap(), range.unwrap())
}

/// The first text and the first data range.
#[tactic(auto, using(crate::proofs::Firsts::first_behind))]
fn first_two(mut segments: Vec<Segment>) -> (Option<Segment>, Option<Segment>)
    ensures text { result.0 ≡ first_where runs segments.items }
    ensures range { result.1 ≡ first_where writes segments.items }
{
    let mut text = None;
    let mut range = None;
    while let Some(segment) = segments.pop() {
        put(segment, &mut text, &mut range);
    }
    (text, range)
}

/// Puts a segment where it belongs.
fn put(segment: Segment, text: &mut Option<Segment>, range: &mut Option<Segment>)
    ensures text { text.new ≡ (if runs segment then Some segment else text.old) }
    ensures range { range.new ≡ (if writes segment then Some segment else range.old) }
{
    if is_text(&segment) {
        *text = Some(segment);
    } else if is_range(&segment) {
        *range = Some(segment);
    }
}
