ghost use Rattle.std.specs.Prelude.{◌≡◌, ◌+◌, ◌≤◌, All, IfOk, length};
ghost use Rattle.c6x_spec.specs.Memory.{CanStart};
ghost use Rattle.c6x_place.specs.Plans.{IsKnown, IsPlacement, bound_plans, placement_of};
ghost use Rattle.c6x_plan.specs.Limits.{IsProcess, IsRunPlan};
ghost use Rattle.c6x_cli_run.specs.Placing.{CanLoad, binding, placed_or, placing};
ghost use Rattle.c6x_cli_steps.specs.Steps.{Decides};

use crate::labels::{bind_label, room_label};
use crate::loading::Loading;
use c6x_base::Name;
use c6x_cli_steps::{PrepareError, refuse};
use c6x_modules::Modules;
use c6x_place::{BindError, Bound, PlaceError, Placement, bind, place};
use c6x_plan::limits::MOST_PROCESSES;
use c6x_plan::{ProcessPlan, RunPlan};
use std::alloc::Global;

/// Binds the processes of a plan over its modules, and places them on the board of `len` bytes from `base` on. `name` is
/// the plan's file.
#[tactic(auto, unfolding(crate::specs::Placing::placing), using(crate::proofs::Deciding::decides_first, crate::proofs::Deciding::decides_then))]
pub fn place_plan(
    alloc: Global,
    name: &Name,
    plan: RunPlan,
    modules: Modules,
    base: u32,
    len: u32,
) -> Result<Loading, PrepareError>
    requires plan { IsRunPlan plan }
    requires each { All (IsProcess (length modules)) plan.processes }
    requires memory { CanStart base len }
    ensures decides { Decides (λ loading. loading) (placing name.now plan modules base len) result }
    ensures loads { IfOk result (CanLoad base len) }
{
    let processes = plan.processes.as_slice();
    let bound = bind_plan(alloc, &modules, processes)?;
    let placement = place_bound(alloc, name, &modules, processes, &bound, base, len)?;
    Ok(Loading {
        plan,
        modules,
        bound,
        placement,
    })
}

/// What the processes are bound to, or the first rule that one breaks.
#[tactic(auto, unfolding(crate::specs::Placing::binding), using(crate::proofs::Counts::one_each))]
fn bind_plan(
    alloc: Global,
    modules: &Modules,
    processes: &[ProcessPlan],
) -> Result<Bound, PrepareError>
    requires known { All (IsKnown modules.now) processes.now }
    requires few { length processes.now ≤ MOST_PROCESSES }
    ensures decides { Decides (λ bound. bound) (binding modules.now processes.now) result }
    ensures value { IfOk result (λ bound. bound.processes ≡ bound_plans modules.now processes.now) }
    ensures count { IfOk result (λ bound. length bound.processes ≡ length processes.now) }
{
    match bind(alloc, modules, processes) {
        Ok(bound) => Ok(bound),
        Err(
            BindError::Rule {
                rule,
                number,
                name,
                ..
            },
        ) => Err(refuse(alloc, bind_label(rule), &name, number)),
        Err(BindError::NoMemory) => Err(PrepareError::Memory),
    }
}

/// Where they stand, or that the board has no room for them.
fn place_bound(
    alloc: Global,
    name: &Name,
    modules: &Modules,
    processes: &[ProcessPlan],
    bound: &Bound,
    base: u32,
    len: u32,
) -> Result<Placement, PrepareError>
    requires same { length bound.now.processes ≡ length processes.now }
    requires memory { CanStart base len }
    ensures decides { Decides (λ placement. placement) (placed_or name.now len (placement_of modules.now processes.now bound.now.processes base (base + len))) result }
    ensures stands { IfOk result (IsPlacement modules.now processes.now bound.now.processes base (base + len)) }
{
    match place(alloc, modules, processes, bound, base, len) {
        Ok(placement) => Ok(placement),
        Err(PlaceError::NoRoom) => Err(refuse(alloc, room_label(), name, len)),
        Err(PlaceError::NoMemory) => Err(PrepareError::Memory),
    }
}
