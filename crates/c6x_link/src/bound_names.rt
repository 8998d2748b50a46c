ghost use Rattle.std.specs.Prelude.{◌≡◌, ◌+◌, ◌<◌, ◌^◌, IfOk, length, if◌then◌else◌};
ghost use Rattle.c6x_symbols.specs.Bindings.{bound_at, is_imported};
ghost use Rattle.c6x_link.specs.Rooms.{HasRoom};
ghost use Rattle.c6x_link.specs.TargetRows.{bound_targets};

use crate::link_value::Link;
use crate::target::Target;
use crate::targets::target_of;
use c6x_dsbt::Wanted;
use c6x_symbols::Bindings;
use std::alloc::{AllocError, Global};

/// What each name of a link is at link addresses.
#[tactic(auto, using(crate::proofs::Counted::first_symbol, crate::proofs::Counted::next_symbol, crate::proofs::Counted::exports_few, crate::proofs::Counted::symbol_small))]
pub fn bound_targets(alloc: Global, link: &Link) -> Result<Vec<Target>, AllocError>
    requires { HasRoom link.now }
    ensures { IfOk result (λ targets. targets.items ≡ bound_targets link.now (length link.now.bindings)) }
{
    let bindings = link.bindings();
    let count = bindings.len();
    let exports = bindings.exports(alloc)?;
    let mut import = 3 + exports.len() as u32;
    let mut targets = Vec::new(alloc);
    for number in 0..count {
        targets.push(target_of(link, Wanted::Bound(number), import))?;
        import = import_behind(bindings, number, import);
    }
    Ok(targets)
}

/// The number of the dynamic symbol of the first import behind a name, where that of the first one from it on is told.
fn import_behind(bindings: &Bindings, number: u32, import: u32) -> u32
    requires number { number < length bindings.now }
    requires import { import < 2 ^ 31 }
    ensures { result ≡ import + (if is_imported (bound_at bindings.now number) then 1 else 0) }
{
    if bindings.is_imported(number) {
        import + 1
    } else {
        import
    }
}
