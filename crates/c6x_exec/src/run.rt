ghost use Rattle.std.specs.Prelude.{◌≡◌, ℕ, ◌+◌, ◌-◌, ◌<◌, ◌≤◌, None, Some, min};
ghost use Rattle.c6x_board.specs.Lane.{LieOn};
ghost use Rattle.c6x_exec.specs.Fits.{IsFramed};
ghost use Rattle.c6x_machine.specs.Machine.{alone, life};
ghost use Rattle.c6x_machine.specs.Origin.{Origin};
ghost use Rattle.c6x_exec.specs.Process.{areas_of, ended_of, cycles_of, limit_of, StandsFor, HasRun};

use crate::process::Process;
use c6x_board::Board;
use c6x_machine::End;

/// What a run of some cycles did: how many, and the end of the process where it then has ended.
#[derive(Clone, Copy, Debug, PartialEq, Eq)]
pub struct Ran {
    pub cycles: u32,
    pub end: Option<End>,
}

/// Does one cycle of a process on the board, and gives its end where it then has ended. It takes no memory.
pub fn cycle(process: &mut Process, board: &mut Board) -> Option<End>
    requires running { ended_of process.old ≡ None }
    requires on_board { LieOn board.old (areas_of process.old) }
    ensures stands { (s : Origin) (n : ℕ) → StandsFor process.old board.old s n → StandsFor process.new board.new s (n + 1) }
    ensures ended { result ≡ ended_of process.new }
    ensures told { (s : Origin) (n : ℕ) → StandsFor process.old board.old s n → result ≡ (alone s (n + 1)).ended }
    ensures cycles { cycles_of process.new ≡ cycles_of process.old + 1 }
    ensures limit { limit_of process.new ≡ limit_of process.old }
    ensures more { cycles_of process.old < limit_of process.old }
    ensures areas { areas_of process.new ≡ areas_of process.old }
    ensures frame { IsFramed (areas_of process.old) board.old board.new }
{
    process.advance(board);
    process.ended()
}

/// Does at least one cycle of a process on the board, and this many at most: one, or some through which it waits.
fn run_some(process: &mut Process, board: &mut Board, most: u32) -> u32
    requires running { ended_of process.old ≡ None }
    requires on_board { LieOn board.old (areas_of process.old) }
    requires some { 1 ≤ most }
    ensures stands { (s : Origin) (n : ℕ) → StandsFor process.old board.old s n → StandsFor process.new board.new s (n + result) }
    ensures some { 1 ≤ result }
    ensures few { result ≤ most }
    ensures areas { areas_of process.new ≡ areas_of process.old }
    ensures cycles { cycles_of process.new ≡ cycles_of process.old + result }
    ensures limit { limit_of process.new ≡ limit_of process.old }
    ensures frame { IsFramed (areas_of process.old) board.old board.new }
{
    let waited = process.wait_out(most);
    if waited == most {
        return waited;
    }
    process.advance(board);
    waited + 1
}

/// Does cycles of a process on the board until this many are done or it has ended. It takes no memory.
pub fn run_cycles(process: &mut Process, board: &mut Board, steps: u32) -> Ran
    requires running { ended_of process.old ≡ None }
    requires on_board { LieOn board.old (areas_of process.old) }
    requires some { 1 ≤ steps }
    ensures stands { (s : Origin) (n : ℕ) → StandsFor process.old board.old s n → StandsFor process.new board.new s (n + result.cycles) }
    ensures count { (s : Origin) (n : ℕ) → StandsFor process.old board.old s n → result.cycles ≡ min steps (life s - n) }
    ensures ended { result.end ≡ ended_of process.new }
    ensures areas { areas_of process.new ≡ areas_of process.old }
    ensures frame { IsFramed (areas_of process.old) board.old board.new }
    ensures some { 1 ≤ result.cycles }
    ensures cycles { cycles_of process.new ≡ cycles_of process.old + result.cycles }
    ensures limit { limit_of process.new ≡ limit_of process.old }
{
    let mut done = 0;
    'cycles: loop {
        done += run_some(process, board, steps - done);
        let end = process.ended();
        if end.is_some() || done == steps {
            return Ran { cycles: done, end };
        }
    }
}

/// Does cycles of a process on the board up to its end, which it gives. It takes no memory.
pub fn run_to_end(process: &mut Process, board: &mut Board) -> End
    requires on_board { LieOn board.old (areas_of process.old) }
    ensures runs { (s : Origin) (n : ℕ) → StandsFor process.old board.old s n → HasRun process.new board.new s result }
    ensures ended { ended_of process.new ≡ Some result }
    ensures areas { areas_of process.new ≡ areas_of process.old }
    ensures frame { IsFramed (areas_of process.old) board.old board.new }
{
    'cycles: loop {
        match process.ended() {
            Some(end) => return end,
            None => process.advance(board),
        }
    }
}
