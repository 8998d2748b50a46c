ghost use Rattle.std.specs.Prelude.{◌≡◌, ◌≢◌, ◌≤◌, [], length};
ghost use Rattle.c6x_ports.specs.Picks.{effective_process, effective_steps};
ghost use Rattle.c6x_ports.specs.declared.limits.TheConstants.{MOST_PROCESSES};
ghost use Rattle.c6x_sched.specs.Together.{AllLieOn};
ghost use Rattle.c6x_sched.specs.Ran.{IsTurned};
ghost use Rattle.c6x_sched.specs.Turns.{ready_of};

use crate::run_at::run_at;
use crate::turn::Turn;
use c6x_board::Board;
use c6x_exec::Process;
use c6x_ports::{Pick, effective_pick};

/// Runs the process that a pick stands for, as long as the pick stands for.
pub(crate) fn run_picked(
    processes: &mut Vec<Process>,
    ready: &[u32],
    quantum: u32,
    board: &mut Board,
    pick: Pick,
) -> Turn
    requires listed { ready.now ≡ ready_of processes.old.items }
    requires open { ready_of processes.old.items ≢ [] }
    requires few { length processes.old.items ≤ MOST_PROCESSES }
    requires quantum { 1 ≤ quantum }
    requires on_board { AllLieOn board.old processes.old.items }
    ensures picked { result.process ≡ effective_process (length processes.old.items) (ready_of processes.old.items) pick }
    ensures turned { IsTurned processes.old.items processes.new.items board.old board.new result.process (effective_steps quantum pick) (record { cycles = result.cycles; end = result.end }) }
{
    let count = processes.as_slice().len() as u32;
    let picked = effective_pick(pick, ready, count, quantum);
    let ran = run_at(processes, picked.process as usize, board, picked.steps);
    Turn {
        process: picked.process,
        cycles: ran.cycles,
        end: ran.end,
    }
}
