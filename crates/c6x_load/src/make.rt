ghost use Rattle.std.specs.Prelude.{◌≡◌, ℕ, ◌+◌, ◌≤◌, IfOk, None, false, length};
ghost use Rattle.c6x_spec.specs.Memory.{Memory};
ghost use Rattle.c6x_machine.specs.Origin.{most_cycles, origin_of};
ghost use Rattle.c6x_exec.specs.Process.{StandsFor, areas_of, ended_of};
ghost use Rattle.c6x_exec.specs.Stands.{HoldsBytes};
ghost use Rattle.c6x_load.specs.Loaded.{start_of};
ghost use Rattle.c6x_load.specs.Areas.{AreBelow, range_areas, seat_areas, text_areas};

use crate::areas::map_of;
use crate::starts::start_of;
use c6x_exec::Process;
use c6x_modules::Modules;
use c6x_place::{BoundProcess, Seat};
use c6x_plan::ProcessPlan;
use std::alloc::{AllocError, Global};

/// The process of a plan before its first cycle, with its areas. It stands for its start on any memory that holds the
/// start bytes in these areas.
pub fn make_process(
    alloc: Global,
    modules: &Modules,
    plan: &ProcessPlan,
    bound: &BoundProcess,
    texts: &[Option<u32>],
    seat: &Seat,
) -> Result<Process, AllocError>
    requires seated { length bound.now.modules ≡ length seat.now.bases }
    requires texts { AreBelow (text_areas modules.now texts.now bound.now.modules) }
    requires ranges { AreBelow (range_areas modules.now bound.now.modules seat.now.bases) }
    requires stack { seat.now.stack + plan.now.stack ≤ 4294967295 }
    requires word { 8 ≤ plan.now.stack }
    requires some { 1 ≤ plan.now.limit }
    requires most { plan.now.limit ≤ most_cycles }
    ensures stands { IfOk result (λ process. (b : Memory) (bytes : ℕ → ℕ) → HoldsBytes b bytes (seat_areas modules.now plan.now.stack bound.now.modules texts.now seat.now) → StandsFor process b (origin_of false (start_of modules.now plan.now texts.now seat.now) bytes (seat_areas modules.now plan.now.stack bound.now.modules texts.now seat.now)) 0) }
    ensures areas { IfOk result (λ process. areas_of process ≡ seat_areas modules.now plan.now.stack bound.now.modules texts.now seat.now) }
    ensures running { IfOk result (λ process. ended_of process ≡ None) }
{
    let list = bound.modules.as_slice();
    let map = map_of(alloc, modules, plan.stack, list, texts, seat)?;
    let start = start_of(modules, plan, texts, seat);
    Process::new(alloc, start, map)
}
