ghost use Rattle.std.specs.Prelude.{◌≡◌, ◌+◌, ◌-◌, ◌^◌, ◌<◌, ◌≤◌, ◌++◌, ◌∷◌, List, OnOk, length, replicate, vec_len};
ghost use Rattle.c6x_elf.specs.Entries.{text_of};
ghost use Rattle.c6x_elf.specs.Laid.{InOrder, Part, laid};
ghost use Rattle.c6x_layout.specs.Regions.{sections_at};
ghost use Rattle.c6x_link.specs.Images.{filled_to, section_part};
ghost use Rattle.c6x_link.specs.Sections.{is_between, parts_between};

use c6x_elf::{File, pad, section_bytes};
use c6x_layout::Place;
use std::alloc::AllocError;

/// The bytes of a section of an object; none where there is no such section.
#[tactic(auto, unfolding(c6x_layout::specs::Regions::sections_at), using(crate::proofs::SectionRows::sections_here, crate::proofs::SectionRows::sections_past, crate::proofs::SectionRows::none_there))]
fn bytes_at(objects: &[File], object: u32, section: u32) -> &[u8]
    ensures { result.now ≡ text_of (sections_at objects.now object) section }
{
    if objects.len() <= object as usize {
        return &[];
    }
    section_bytes(objects[object as usize].sections.as_slice(), section)
}

/// Puts zeros up to `end`, if that is not behind already.
#[tactic(auto, using(crate::proofs::SectionRows::none_more))]
fn pad_up(out: &mut Vec<u8>, end: usize) -> Result<(), AllocError>
    ensures zeros { OnOk result (out.new.items ≡ out.old.items ++ replicate (end - vec_len out.old) 0) }
    ensures end { OnOk result (vec_len out.new ≡ vec_len out.old + (end - vec_len out.old)) }
{
    if out.len() < end {
        pad(out, end)
    } else {
        Ok(())
    }
}

/// Puts zeros up to `at`, the bytes, and zeros up to the length.
fn put_filled(out: &mut Vec<u8>, at: usize, len: u32, bytes: &[u8]) -> Result<(), AllocError>
    requires place { vec_len out.old ≤ at }
    requires few { at < 2 ^ 32 }
    ensures laid { OnOk result ((rest : List Part) → out.new.items ++ laid (vec_len out.new) rest ≡ out.old.items ++ laid (vec_len out.old) (record { at = at; bytes = filled_to len bytes.now } ∷ rest)) }
    ensures end { OnOk result (vec_len out.new ≡ at + length (filled_to len bytes.now)) }
{
    pad(out, at)?;
    out.extend_from_slice(bytes)?;
    pad_up(out, at + len as usize)?;
    Ok(())
}

/// Puts a section in its place in the segment that begins at `start`.
fn put_section(
    out: &mut Vec<u8>,
    objects: &[File],
    start: u32,
    place: &Place,
) -> Result<(), AllocError>
    requires { vec_len out.old ≤ place.now.address - start }
    ensures laid { OnOk result ((rest : List Part) → out.new.items ++ laid (vec_len out.new) rest ≡ out.old.items ++ laid (vec_len out.old) (section_part objects.now start place.now ∷ rest)) }
    ensures order { OnOk result ((rest : List Part) → InOrder (vec_len out.old) (section_part objects.now start place.now ∷ rest) → InOrder (vec_len out.new) rest) }
{
    let bytes = bytes_at(objects, place.object, place.section);
    let at = place.address.saturating_sub(start) as usize;
    put_filled(out, at, place.len, bytes)
}

/// Puts the sections of addresses from `low` on and below `high`, each in its place.
pub fn put_sections(
    out: &mut Vec<u8>,
    objects: &[File],
    start: u32,
    low: u32,
    high: u32,
    places: &[Place],
) -> Result<(), AllocError>
    requires { InOrder (vec_len out.old) (parts_between objects.now start low high places.now) }
    ensures laid { OnOk result ((rest : List Part) → out.new.items ++ laid (vec_len out.new) rest ≡ out.old.items ++ laid (vec_len out.old) (parts_between objects.now start low high places.now ++ rest)) }
    ensures order { OnOk result ((rest : List Part) → InOrder (vec_len out.old) (parts_between objects.now start low high places.now ++ rest) → InOrder (vec_len out.new) rest) }
{
    for place in places {
        if low <= place.address && place.address < high {
            put_section(out, objects, start, place)?;
        }
    }
    Ok(())
}
