ghost use Rattle.std.specs.Prelude.{◌≡◌, IfOk};
ghost use Rattle.c6x_layout.specs.Sizes.{AreAddresses, AreChained, layout_by};

use crate::aligning::{greatest_align, greatest_common};
use crate::commons::common_addresses;
use crate::file_limits::TEXT_START;
use crate::group::Group;
use crate::layout::Layout;
use crate::limits::{DATA_ALIGN, TEXT_ALIGN};
use crate::sizes::Sizes;
use crate::spreading::places;
use c6x_base::Row;
use c6x_symbols::{Bindings, Part};
use std::alloc::{AllocError, Global};

/// The layout of these numbers, which are addresses.
#[tactic(auto, unfolding(crate::specs::Sizes::layout_by))]
pub fn layout_by(
    alloc: Global,
    parts: &[Part],
    bindings: &Bindings,
    sizes: &Sizes,
) -> Result<Layout, AllocError>
    requires addresses { AreAddresses sizes.now }
    requires chained { AreChained parts.now bindings.now sizes.now }
    ensures { IfOk result (λ layout. layout ≡ layout_by parts.now bindings.now sizes.now) }
{
    let places = places(alloc, parts, TEXT_START, sizes.start as u32, sizes.ends)?;
    let near = sizes.ends.near_zeros as u32;
    let far = sizes.ends.far_zeros as u32;
    let commons = common_addresses(alloc, bindings, near, far)?;
    Ok(Layout {
        places,
        commons: Row::of(commons),
        stubs: sizes.code.stubs as u32,
        dynamic: TEXT_START + sizes.text.dynamic as u32,
        text_end: TEXT_START + sizes.text.end as u32,
        text_align: greatest_align(parts, Group::Text, TEXT_ALIGN),
        table: sizes.table as u32,
        words: sizes.words as u32,
        file_end: sizes.ends.far_bytes as u32,
        end: sizes.ends.far as u32,
        data_align: greatest_align(parts, Group::Data, greatest_common(bindings, DATA_ALIGN)),
    })
}
