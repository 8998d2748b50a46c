ghost use Rattle.std.specs.Prelude.{◌≡◌, ◌+◌, ◌≤◌, ℕ, [], All, IfOk, OnErr, OnOk, false, length, vec_capacity};
ghost use Rattle.c6x_spec.specs.Parts.{HoldsParts, filled_with};
ghost use Rattle.c6x_plan.specs.Limits.{IsProcess};
ghost use Rattle.c6x_place.specs.Plans.{IsPlacement, bound_plans};
ghost use Rattle.c6x_load.specs.Loaded.{plan_parts};
ghost use Rattle.c6x_load.specs.ReadBack.{AreSeatsReadBack};
ghost use Rattle.c6x_sched.specs.Together.{AllLieOn, AllStand, AreApart};
ghost use Rattle.c6x_load.specs.Made.{AreFresh};
ghost use Rattle.c6x_load.specs.Starts.{origins};

use crate::plan_loading::load_parts;
use crate::processes::make_processes;
use c6x_board::Board;
use c6x_modules::Modules;
use c6x_place::{Bound, Placement};
use c6x_plan::ProcessPlan;
use c6x_sched::Loaded;
use std::alloc::{AllocError, Global};

/// Loads the processes of a plan: writes their start bytes, and gives the processes before their first cycle, with an
/// empty list of numbers that has room for each. Every other byte of the memory is as before, which `start` says part by
/// part. All memory is taken first: after `AllocError` the board is as it was.
pub fn load(
    alloc: Global,
    modules: &Modules,
    processes: &[ProcessPlan],
    bound: &Bound,
    placement: &Placement,
    board: &mut Board,
) -> Result<Loaded, AllocError>
    requires each { All (IsProcess (length modules.now)) processes.now }
    requires bound { bound.now.processes ≡ bound_plans modules.now processes.now }
    requires placed { IsPlacement modules.now processes.now bound.now.processes board.old.base (board.old.base + length board.old.bytes) placement.now }
    ensures after { OnOk result (board.new ≡ filled_with (plan_parts false modules.now processes.now bound.now.processes placement.now) board.old) }
    ensures start { OnOk result (HoldsParts (plan_parts false modules.now processes.now bound.now.processes placement.now) board.old board.new) }
    ensures read_back { OnOk result (AreSeatsReadBack board.new modules.now placement.now.texts bound.now.processes placement.now.seats) }
    ensures err { OnErr result (board.new ≡ board.old) }
    ensures stand { IfOk result (λ loaded. AllStand loaded.processes.items board.new (origins modules.now processes.now bound.now.processes placement.now) (λ number. 0)) }
    ensures apart { IfOk result (λ loaded. AreApart loaded.processes.items) }
    ensures lie { IfOk result (λ loaded. AllLieOn board.new loaded.processes.items) }
    ensures count { IfOk result (λ loaded. length loaded.processes.items ≡ length processes.now) }
    ensures fresh { IfOk result (λ loaded. AreFresh loaded.processes.items) }
    ensures ready { IfOk result (λ loaded. loaded.ready.items ≡ []) }
    ensures room { IfOk result (λ loaded. length loaded.processes.items ≤ vec_capacity loaded.ready) }
{
    let _ = (board.len(), modules.len());
    let texts = placement.texts.as_slice();
    let seats = placement.seats.as_slice();
    let bounds = bound.processes.as_slice();
    let made = make_processes(alloc, modules, processes, bounds, texts, seats)?;
    let ready = Vec::with_capacity(alloc, processes.len())?;
    load_parts(modules, processes, bound, placement, board);
    Ok(Loaded {
        processes: made,
        ready,
    })
}
