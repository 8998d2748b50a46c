ghost use Rattle.std.specs.Prelude.{◌≡◌, IfOk, OnOk, Some, if◌then◌else◌};
ghost use Rattle.indexmap.specs.IndexMap.{get};
ghost use Rattle.c6x_link.specs.SectionAddresses.{address_or_zero, found_in, key_of, same_key};
ghost use Rattle.c6x_link.specs.declared.section_key.SectionKey.{SectionKey as KeyOf};

use crate::section_key::SectionKey;
use c6x_layout::Place;
use indexmap::IndexMap;
use std::alloc::{AllocError, Global};

/// The addresses of sections by their numbers, from their places.
#[tactic(auto, using(crate::proofs::FoundTargets::found_front, crate::proofs::FoundTargets::found_none))]
pub fn addresses_of(
    alloc: Global,
    places: &[Place],
) -> Result<IndexMap<SectionKey, u32>, AllocError>
    ensures { IfOk result (λ addresses. (key : KeyOf) → get same_key addresses key ≡ found_in places.now key) }
{
    let mut addresses = IndexMap::new(alloc);
    for back in 0..places.len() {
        add(&mut addresses, places[places.len() - 1 - back])?;
    }
    Ok(addresses)
}

/// Gives a section its address.
fn add(addresses: &mut IndexMap<SectionKey, u32>, place: Place) -> Result<(), AllocError>
    ensures { OnOk result ((key : KeyOf) → get same_key addresses.new key ≡ (if same_key (key_of place) key then Some place.address else get same_key addresses.old key)) }
{
    let key = SectionKey {
        object: place.object,
        section: place.section,
    };
    addresses.insert(key, place.address)?;
    Ok(())
}

/// The address of a section; 0 where it has none.
pub fn address(addresses: &IndexMap<SectionKey, u32>, object: u32, section: u32) -> u32
    ensures { result ≡ address_or_zero (get same_key addresses.now (record { object = object; section = section })) }
{
    let key = SectionKey { object, section };
    match addresses.get(&key) {
        Some(address) => *address,
        None => 0,
    }
}
