ghost use Rattle.std.specs.Prelude.{◌≤◌, IfOk};
ghost use Rattle.c6x_spec.specs.Memory.{CanStart};
ghost use Rattle.c6x_gen.specs.Limits.{IsWithin};
ghost use Rattle.c6x_cli_run.specs.Placing.{CanLoad};
ghost use Rattle.c6x_cli_steps.specs.Steps.{Decides};
ghost use Rattle.c6x_cli.specs.Made.{generated_loading, loading_made};

use crate::making::make_modules;
use c6x_base::Name;
use c6x_cli_run::{Loading, place_plan};
use c6x_cli_steps::PrepareError;
use c6x_gen::{Generated, plan_of};
use std::alloc::Global;

/// What a number comes to on a board of `len` bytes from `base` on. Nothing is written.
#[tactic(auto, unfolding(crate::specs::Made::generated_loading))]
pub fn prepare_generated(
    alloc: Global,
    number: u32,
    base: u32,
    len: u32,
) -> Result<Loading, PrepareError>
    requires small { number ≤ 999999 }
    requires memory { CanStart base len }
    ensures decides { Decides (λ loading. loading) (generated_loading number base len) result }
    ensures loads { IfOk result (CanLoad base len) }
{
    let Ok(made) = plan_of(alloc, number) else {
        return Err(PrepareError::Memory);
    };
    place_made(alloc, made, base, len)
}

/// The same of what was generated.
#[tactic(auto, unfolding(crate::specs::Made::loading_made), using(c6x_cli_run::proofs::Deciding::decides_first, c6x_cli_run::proofs::Deciding::decides_then))]
fn place_made(alloc: Global, made: Generated, base: u32, len: u32) -> Result<Loading, PrepareError>
    requires within { IsWithin made }
    requires memory { CanStart base len }
    ensures decides { Decides (λ loading. loading) (loading_made made base len) result }
    ensures loads { IfOk result (CanLoad base len) }
{
    let Ok(name) = Name::from_bytes(alloc, b"gen") else {
        return Err(PrepareError::Memory);
    };
    let sources = made.sources.as_slice();
    let links = made.links.as_slice();
    let images = made.plan.modules.as_slice();
    let modules = make_modules(alloc, sources, links, images)?;
    place_plan(alloc, &name, made.plan, modules, base, len)
}
