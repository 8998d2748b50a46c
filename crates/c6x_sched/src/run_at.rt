ghost use Rattle.std.specs.Prelude.{◌≡◌, ◌<◌, ◌≤◌, Some, None, slice_get, length};
ghost use Rattle.c6x_board.specs.Lane.{LieOn};
ghost use Rattle.c6x_exec.specs.Process.{areas_of, ended_of};
ghost use Rattle.c6x_exec.specs.declared.process.Process.{Process};
ghost use Rattle.c6x_sched.specs.Ran.{IsTurned};

use c6x_board::Board;
use c6x_exec::{Process, Ran, run_cycles};

/// Runs one of the processes for some cycles.
pub(crate) fn run_at(processes: &mut Vec<Process>, at: usize, board: &mut Board, steps: u32) -> Ran
    requires within { at < length processes.old.items }
    requires some { 1 ≤ steps }
    requires running { (p : Process) → slice_get processes.old.items at ≡ Some p → ended_of p ≡ None }
    requires on_board { (p : Process) → slice_get processes.old.items at ≡ Some p → LieOn board.old (areas_of p) }
    ensures { IsTurned processes.old.items processes.new.items board.old board.new at steps result }
{
    run_cycles(&mut processes[at], board, steps)
}
