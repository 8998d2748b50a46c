ghost use Rattle.std.specs.Prelude.{◌≡◌, ◌+◌, ◌*◌, ◌^◌, ◌<◌, ◌≤◌, false, true, IfOk, length};
ghost use Rattle.c6x_symbols.specs.Bindings.{binding_in, bound_at};
ghost use Rattle.c6x_layout.specs.Layouts.{align_or, greatest_common};
ghost use Rattle.c6x_layout.specs.Places.{added, address_or, commons_end, commons_from, end_or, room_of};

use crate::placing::start_of;
use c6x_symbols::{Binding, Bindings};
use std::alloc::{AllocError, Global};

/// The end behind the commons of this nearness that are laid from here on.
#[tactic(auto, using(crate::proofs::CommonsLaid::commons_drop, crate::proofs::CommonsLaid::commons_all))]
pub fn commons_end(bindings: &Bindings, near: bool, from: u64) -> u64
    requires room { from ≤ 2 ^ 62 }
    ensures value { result ≡ commons_end near from bindings.now }
    ensures near { result ≤ from + 2 ^ 61 }
{
    let mut at = from;
    for number in 0..bindings.len() {
        at = end_with(at, near, bindings.get(number));
    }
    at
}

/// The end behind the common of a binding, if it has one of this nearness.
fn end_with(at: u64, near: bool, binding: Binding) -> u64
    requires { at < 2 ^ 63 }
    ensures value { result ≡ end_or at (room_of near binding) }
    ensures near { result ≤ at + 2 ^ 33 }
{
    match binding {
        Binding::Common {
            size,
            align,
            near: own,
        } => {
            if own == near {
                start_of(at, align) + u64::from(size)
            } else {
                at
            }
        }
        _ => at,
    }
}

/// Where the common of a binding begins, if it has one of this nearness; else 0.
fn address_of(at: u64, near: bool, binding: Binding) -> u64
    requires { at < 2 ^ 63 }
    ensures { result ≡ address_or at (room_of near binding) }
{
    match binding {
        Binding::Common {
            align,
            near: own,
            ..
        } => { if own == near { start_of(at, align) } else { 0 } }
        _ => 0,
    }
}

/// The addresses of the commons, by the numbers of their names, where the near and the far ones are laid from here on;
/// 0 for every other name.
#[tactic(auto, using(crate::proofs::CommonsLaid::addresses_drop, crate::proofs::CommonsLaid::addresses_all, crate::proofs::CommonsLaid::commons_drop))]
pub fn common_addresses(
    alloc: Global,
    bindings: &Bindings,
    near: u32,
    far: u32,
) -> Result<Vec<u32>, AllocError>
    requires near { commons_end true near bindings.now < 2 ^ 32 }
    requires far { commons_end false far bindings.now < 2 ^ 32 }
    ensures { IfOk result (λ made. made.items ≡ added (commons_from true near bindings.now) (commons_from false far bindings.now)) }
{
    let mut made = Vec::new(alloc);
    let mut near_at = near;
    let mut far_at = far;
    for number in 0..bindings.len() {
        let binding = bindings.get(number);
        made.push(address_in(near_at, far_at, binding))?;
        near_at = end_in(near_at, true, binding);
        far_at = end_in(far_at, false, binding);
    }
    Ok(made)
}

/// The address of the common of a binding, near or far; 0 where it has none.
#[tactic(auto, using(crate::proofs::CommonsLaid::address_small))]
fn address_in(near_at: u32, far_at: u32, binding: Binding) -> u32
    requires near { end_or near_at (room_of true binding) < 2 ^ 32 }
    requires far { end_or far_at (room_of false binding) < 2 ^ 32 }
    ensures { result ≡ address_or near_at (room_of true binding) + address_or far_at (room_of false binding) }
{
    (address_of(u64::from(near_at), true, binding)
        + address_of(u64::from(far_at), false, binding)) as u32
}

/// The end behind the common of a binding, where that is an address.
fn end_in(at: u32, near: bool, binding: Binding) -> u32
    requires { end_or at (room_of near binding) < 2 ^ 32 }
    ensures { result ≡ end_or at (room_of near binding) }
{
    end_with(u64::from(at), near, binding) as u32
}
