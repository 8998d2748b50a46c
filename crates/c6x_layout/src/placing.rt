ghost use Rattle.std.specs.Prelude.{◌≡◌, ◌+◌, ◌*◌, ◌^◌, ◌<◌, ◌≤◌, ◌++◌, IfOk, OnOk, filter, length};
ghost use Rattle.c6x_layout.specs.Groups.{end_with, in_group, place_with};
ghost use Rattle.c6x_layout.specs.Places.{places_end, places_from, start_of};

use crate::group::{Group, is_in};
use crate::place::Place;
use c6x_base::least_multiple;
use c6x_symbols::Part;
use std::alloc::AllocError;

/// The least multiple of an alignment that is not below a place; an alignment of 0 asks for none.
#[tactic(auto, unfolding(crate::specs::Places::start_of))]
pub fn start_of(at: u64, align: u32) -> u64
    requires { at < 2 ^ 63 }
    ensures value { result ≡ start_of at align }
    ensures above { at ≤ result }
    ensures near { result < at + 2 ^ 32 }
{
    least_multiple(at, align.max(1))
}

/// The end behind the sections of a group that are laid from here on.
#[tactic(auto, using(crate::proofs::Laid::end_drop, crate::proofs::Laid::end_all))]
pub fn group_end(parts: &[Part], group: Group, from: u64) -> u64
    requires few { length parts.now ≤ 2 ^ 20 }
    requires room { from ≤ 2 ^ 62 }
    ensures value { result ≡ places_end from (filter (in_group group) parts.now) }
    ensures above { from ≤ result }
    ensures near { result ≤ from + 2 ^ 53 }
{
    let mut at = from;
    for part in parts {
        at = end_with(at, group, part);
    }
    at
}

/// The end behind a section, if it belongs to the group.
fn end_with(at: u64, group: Group, part: &Part) -> u64
    requires { at < 2 ^ 63 }
    ensures value { result ≡ end_with (in_group group part.now) at part.now }
    ensures above { at ≤ result }
    ensures near { result ≤ at + 2 ^ 33 }
{
    if is_in(group, part) {
        start_of(at, part.align) + u64::from(part.size)
    } else {
        at
    }
}

/// Adds the places of the sections of a group, which are laid from here on, and tells the end behind them.
#[tactic(auto, using(crate::proofs::Laid::end_drop, crate::proofs::Laid::end_all, crate::proofs::Laid::places_drop, crate::proofs::Laid::places_all, crate::proofs::Laid::end_above))]
pub fn place_group(
    places: &mut Vec<Place>,
    parts: &[Part],
    group: Group,
    from: u32,
) -> Result<u32, AllocError>
    requires { places_end from (filter (in_group group) parts.now) < 2 ^ 32 }
    ensures places { OnOk result (places.new.items ≡ places.old.items ++ places_from from (filter (in_group group) parts.now)) }
    ensures end { IfOk result (λ end. end ≡ places_end from (filter (in_group group) parts.now)) }
{
    let mut at = from;
    for part in parts {
        at = place_part(places, part, group, at)?;
    }
    Ok(at)
}

/// Adds the place of a section, if it belongs to the group, and tells the end behind it.
fn place_part(
    places: &mut Vec<Place>,
    part: &Part,
    group: Group,
    at: u32,
) -> Result<u32, AllocError>
    requires { end_with (in_group group part.now) at part.now < 2 ^ 32 }
    ensures places { OnOk result (places.new.items ≡ places.old.items ++ place_with (in_group group part.now) at part.now) }
    ensures end { IfOk result (λ end. end ≡ end_with (in_group group part.now) at part.now) }
{
    if !is_in(group, part) {
        return Ok(at);
    }
    let address = start_of(u64::from(at), part.align) as u32;
    places.push(Place {
        object: part.object,
        section: part.section,
        address,
        len: part.size,
    })?;
    Ok(address + part.size)
}
