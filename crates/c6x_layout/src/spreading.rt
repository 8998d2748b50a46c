ghost use Rattle.std.specs.Prelude.{◌≡◌, ◌^◌, ◌<◌, ◌++◌, IfOk, filter};
ghost use Rattle.c6x_layout.specs.Places.{in_far_bytes, in_far_zeros, in_near_bytes, in_near_zeros, in_text, places_end, places_from};

use crate::ends::Ends;
use crate::group::Group;
use crate::place::Place;
use crate::placing::place_group;
use c6x_base::Row;
use c6x_symbols::Part;
use std::alloc::{AllocError, Global};

/// The places of all sections, where the text begins at `text` and the parts of the data at `range`, and the groups of the data
/// end here.
#[tactic(auto, using(crate::proofs::Spread::five_parts))]
pub fn places(
    alloc: Global,
    parts: &[Part],
    text: u32,
    range: u32,
    ends: Ends,
) -> Result<Row<Place>, AllocError>
    requires text { places_end text (filter in_text parts.now) < 2 ^ 32 }
    requires near_bytes { places_end range (filter in_near_bytes parts.now) ≡ ends.near_bytes }
    requires near_zeros { places_end ends.near_bytes (filter in_near_zeros parts.now) ≡ ends.near_zeros }
    requires far_bytes { places_end ends.near (filter in_far_bytes parts.now) ≡ ends.far_bytes }
    requires far_zeros { places_end ends.far_bytes (filter in_far_zeros parts.now) ≡ ends.far_zeros }
    requires first { ends.near_bytes < 2 ^ 32 }
    requires second { ends.near_zeros < 2 ^ 32 }
    requires third { ends.near < 2 ^ 32 }
    requires fourth { ends.far_bytes < 2 ^ 32 }
    requires fifth { ends.far_zeros < 2 ^ 32 }
    ensures { IfOk result (λ places. places ≡ places_from text (filter in_text parts.now) ++ (places_from range (filter in_near_bytes parts.now) ++ (places_from ends.near_bytes (filter in_near_zeros parts.now) ++ (places_from ends.near (filter in_far_bytes parts.now) ++ places_from ends.far_bytes (filter in_far_zeros parts.now))))) }
{
    let mut places = Vec::new(alloc);
    place_group(&mut places, parts, Group::Text, text)?;
    place_group(&mut places, parts, Group::NearBytes, range)?;
    place_group(&mut places, parts, Group::NearZeros, ends.near_bytes as u32)?;
    place_group(&mut places, parts, Group::FarBytes, ends.near as u32)?;
    place_group(&mut places, parts, Group::FarZeros, ends.far_bytes as u32)?;
    Ok(Row::of(places))
}
