ghost use Rattle.std.specs.Prelude.{◌≡◌, IfOk};
ghost use Rattle.c6x_base.specs.Search.{has};
ghost use Rattle.c6x_place.specs.Plans.{is_used, used_from};

use crate::bound_process::BoundProcess;
use c6x_modules::Modules;
use std::alloc::{AllocError, Global};

/// For each module whether some process uses its text.
#[tactic(auto, using(crate::proofs::Walks::used_more))]
pub fn used_texts(
    alloc: Global,
    modules: &Modules,
    bounds: &[BoundProcess],
) -> Result<Vec<bool>, AllocError>
    ensures { IfOk result (λ used. used.items ≡ used_from bounds.now 0 modules.now) }
{
    let mut used = Vec::new(alloc);
    for (number, _image) in modules.as_slice().iter().enumerate() {
        used.push(is_used(bounds, number as u32))?;
    }
    Ok(used)
}

/// A module is on the search list of some process.
fn is_used(bounds: &[BoundProcess], number: u32) -> bool
    ensures { result ≡ is_used bounds.now number }
{
    for bound in bounds {
        if has(bound.modules.as_slice(), number) {
            return true;
        }
    }
    false
}

/// A number stands in a list.
fn has(list: &[u32], number: u32) -> bool
    ensures { result ≡ has list.now number }
{
    for member in list {
        if *member == number {
            return true;
        }
    }
    false
}
