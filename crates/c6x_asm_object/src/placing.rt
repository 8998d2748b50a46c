ghost use Rattle.std.specs.Prelude.{◌≡◌, ℕ, ◌+◌, ◌<◌, ◌^◌, ◌≤◌, max, length, Some, IfSome};
ghost use Rattle.c6x_base.specs.declared.limits.TheConstants.{MOST_FILE_BYTES};
ghost use Rattle.c6x_asm_object.specs.Places.{Ends, Reaches, both, end_of, is_stored, kept, section_end, section_stretch, small, small_end};

use crate::asm_section::AsmSection;
use crate::section_kind::SectionKind;
use crate::stretch::Stretch;
use c6x_base::least_multiple;
use c6x_base::limits::MOST_FILE_BYTES;

fn is_stored(kind: SectionKind) -> bool
    ensures { result ≡ is_stored kind }
{
    match kind {
        SectionKind::Zero => false,
        _ => true,
    }
}

fn kept(ahead: u64, align: u32, behind: u64) -> Option<Stretch>
    ensures { result ≡ kept ahead align behind }
{
    Some(Stretch {
        ahead: u32::try_from(ahead).ok()?,
        align,
        behind: u32::try_from(behind).ok()?,
    })
}

/// What a section does to a place.
#[tactic(auto, unfolding(crate::specs::Places::section_stretch))]
pub fn section_stretch(section: &AsmSection) -> Option<Stretch>
    ensures { result ≡ section_stretch section.now }
{
    if is_stored(section.kind) {
        kept(0, section.align, section.bytes.as_slice().len() as u64)
    } else {
        Some(Stretch {
            ahead: 0,
            align: 1,
            behind: 0,
        })
    }
}

/// One stretch behind another. None where none of their alignments is a multiple of the other, or for large numbers.
#[tactic(auto, unfolding(crate::specs::Places::both))]
pub fn both(a: Stretch, b: Stretch) -> Option<Stretch>
    ensures { result ≡ both a b }
{
    let first = a.align.max(1);
    let second = b.align.max(1);
    let between = u64::from(a.behind) + u64::from(b.ahead);
    if second % first == 0 {
        kept(
            u64::from(a.ahead) + least_multiple(between, first),
            b.align,
            u64::from(b.behind),
        )
    } else if first % second == 0 {
        kept(
            u64::from(a.ahead),
            a.align,
            least_multiple(between, second) + u64::from(b.behind),
        )
    } else {
        None
    }
}

// Where a stretch ends that begins at a place.
#[tactic(auto, unfolding(crate::specs::Places::end_of))]
fn end_of(s: Stretch, at: u32) -> u64
    ensures { result ≡ end_of s at }
{
    least_multiple(u64::from(at) + u64::from(s.ahead), s.align.max(1)) + u64::from(s.behind)
}

// No place past the most bytes of a file.
fn small(at: u64) -> Option<u64>
    ensures is { result ≡ small at }
    ensures few { IfSome result (λ end. end ≤ MOST_FILE_BYTES) }
{
    if at > u64::from(MOST_FILE_BYTES) {
        None
    } else {
        Some(at)
    }
}

#[tactic(auto, unfolding(crate::specs::Places::place_behind))]
fn section_end(at: u64, section: &AsmSection) -> u64
    requires { at ≤ MOST_FILE_BYTES }
    ensures { result ≡ section_end at section.now }
{
    if is_stored(section.kind) {
        least_multiple(at, section.align.max(1)) + section.bytes.as_slice().len() as u64
    } else {
        at
    }
}

// A walk over the sections.
fn small_end(at: u64, sections: &[AsmSection]) -> Option<u64>
    requires { at ≤ MOST_FILE_BYTES }
    ensures is { result ≡ small_end at sections.now }
    ensures few { IfSome result (λ end. end ≤ MOST_FILE_BYTES) }
{
    let mut end = at;
    for section in sections {
        end = small(section_end(end, section))?;
    }
    Some(end)
}

/// Where sections that begin behind the file header end. None where that is past the most bytes of a file.
#[tactic(auto, using(crate::proofs::Stretches::small_ends))]
pub fn end(sections: &[AsmSection], stretch: Option<Stretch>) -> Option<u64>
    requires { Reaches stretch sections.now }
    ensures { Ends 52 result sections.now }
{
    match stretch {
        Some(s) => Some(end_of(s, 52)),
        None => small_end(52, sections),
    }
}
