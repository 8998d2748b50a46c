ghost use Rattle.std.specs.Prelude.{◌≡◌, ℕ, All, IfOk, length};
ghost use Rattle.c6x_plan.specs.Limits.{IsProcess};
ghost use Rattle.c6x_load.specs.ProcessLaws.{AreAllBelow};
ghost use Rattle.c6x_load.specs.Made.{AreMade};
ghost use Rattle.c6x_load.specs.Starts.{origins_of};

use crate::make::make_process;
use c6x_exec::Process;
use c6x_modules::Modules;
use c6x_place::{BoundProcess, Seat};
use c6x_plan::ProcessPlan;
use std::alloc::{AllocError, Global};

/// The processes of a plan before their first cycle, in the order of the plan.
pub(crate) fn make_processes(
    alloc: Global,
    modules: &Modules,
    processes: &[ProcessPlan],
    bounds: &[BoundProcess],
    texts: &[Option<u32>],
    seats: &[Seat],
) -> Result<Vec<Process>, AllocError>
    requires bounds { length processes.now ≡ length bounds.now }
    requires seats { length processes.now ≡ length seats.now }
    requires each { All (IsProcess (length modules.now)) processes.now }
    requires below { AreAllBelow modules.now texts.now processes.now bounds.now seats.now }
    ensures { (bytes : ℕ → ℕ) → IfOk result (λ made. AreMade made.items (origins_of modules.now texts.now bytes processes.now bounds.now seats.now)) }
{
    let mut made = Vec::new(alloc);
    for (number, plan) in processes.iter().enumerate() {
        let (bound, seat) = (&bounds[number], &seats[number]);
        let process = make_process(alloc, modules, plan, bound, texts, seat)?;
        made.push(process)?;
    }
    Ok(made)
}
