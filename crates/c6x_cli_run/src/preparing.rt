ghost use Rattle.std.specs.Prelude.{◌≡◌, IfOk};
ghost use Rattle.c6x_spec.specs.Memory.{CanStart};
ghost use Rattle.c6x_cli_run.specs.Loading.{loading_steps};
ghost use Rattle.c6x_cli_run.specs.Placing.{CanLoad};
ghost use Rattle.c6x_cli_steps.specs.Steps.{Prepares};

use crate::images::fetch_modules;
use crate::loading::Loading;
use crate::placing::place_plan;
use c6x_base::Name;
use c6x_cli_steps::{PrepareError, fetch_plan};
use c6x_ports::Shelf;
use std::alloc::Global;

/// What the plan with this name comes to on a board of `len` bytes from `base` on. Nothing is written.
pub fn prepare_loading<S: Shelf>(
    alloc: Global,
    shelf: &mut S,
    name: &Name,
    base: u32,
    len: u32,
) -> Result<Loading, PrepareError>
    requires { CanStart base len }
    ensures prepares { Prepares (λ loading. loading) (λ told. loading_steps told name.now base len) (S.seen shelf.old) (S.seen shelf.new) result }
    ensures loads { IfOk result (CanLoad base len) }
{
    let plan = fetch_plan(alloc, shelf, name)?;
    let modules = fetch_modules(alloc, shelf, plan.modules.as_slice())?;
    place_plan(alloc, name, plan, modules, base, len)
}
