ghost use Rattle.std.specs.Prelude.{◌≡◌, ◌+◌, ◌-◌, ◌*◌, ◌^◌, ◌≤◌, ◌==◌, None, OnOk, IfOk, length, nat_le, if◌then◌else◌};
ghost use Rattle.c6x_layout.specs.FilePlaces.{places_of, text_size};
ghost use Rattle.c6x_layout.specs.declared.file_limits.TheConstants.{MOST_SEGMENT_BYTES};
ghost use Rattle.c6x_symbols.specs.Rules.{Passes, must, refusal};
ghost use Rattle.c6x_symbols.specs.declared.link_rule.LinkRule.TheVariants.{Large};
ghost use Rattle.c6x_layout.specs.Groups.{ends_of};
ghost use Rattle.c6x_layout.specs.Layouts.{most_32};
ghost use Rattle.c6x_layout.specs.declared.limits.TheConstants.{MOST_STUB_WORD};

use crate::commons::commons_end;
use crate::ends::Ends;
use crate::file_limits::MOST_SEGMENT_BYTES;
use crate::group::Group;
use crate::limits::MOST_STUB_WORD;
use crate::placing::group_end;
use c6x_symbols::{Bindings, LinkError, LinkRule, Part, check};
use std::alloc::Global;

/// Checks the bytes of a segment (K4).
pub fn check_size(alloc: Global, size: u64) -> Result<(), LinkError>
    ensures passes { Passes result (must (nat_le size MOST_SEGMENT_BYTES) (refusal Large 0 (most_32 size))) }
    ensures small { OnOk result (size ≤ MOST_SEGMENT_BYTES) }
{
    let holds = size <= u64::from(MOST_SEGMENT_BYTES);
    check(alloc, holds, LinkRule::Large, 0, most_32(size))
}

/// A number as far as 32 bits have it.
fn most_32(size: u64) -> u32
    ensures { result ≡ most_32 size }
{
    size.min(u64::from(u32::MAX)) as u32
}

/// Checks the greatest number of a stub's word (K4).
pub fn check_words(alloc: Global, table: u32, words: usize, stubs: usize) -> Result<(), LinkError>
    requires words { words ≤ 2 ^ 40 }
    requires stubs { stubs ≤ 2 ^ 40 }
    ensures { Passes result (if stubs == 0 then None else must (nat_le (table + words + stubs - 1) MOST_STUB_WORD) (refusal Large 0 (most_32 (table + words + stubs - 1)))) }
{
    if stubs == 0 {
        return Ok(());
    }
    let greatest = u64::from(table) + words as u64 + stubs as u64 - 1;
    let holds = greatest <= u64::from(MOST_STUB_WORD);
    check(alloc, holds, LinkRule::Large, 0, most_32(greatest))
}

/// The ends of the groups of the data, which are laid from here on.
#[tactic(auto, unfolding(crate::specs::Groups::ends_of))]
pub fn data_ends(parts: &[Part], bindings: &Bindings, from: u64) -> Ends
    requires few { length parts.now ≤ 2 ^ 20 }
    requires room { from ≤ 2 ^ 57 }
    ensures { result ≡ ends_of from parts.now bindings.now }
{
    let near_bytes = group_end(parts, Group::NearBytes, from);
    let near_zeros = group_end(parts, Group::NearZeros, near_bytes);
    let near = commons_end(bindings, true, near_zeros);
    let far_bytes = group_end(parts, Group::FarBytes, near);
    let far_zeros = group_end(parts, Group::FarZeros, far_bytes);
    let far = commons_end(bindings, false, far_zeros);
    Ends {
        near_bytes,
        near_zeros,
        near,
        far_bytes,
        far_zeros,
        far,
    }
}
