ghost use Rattle.std.specs.Prelude.{◌≡◌, ◌≢◌, ◌≤◌, ℕ, [], length, OnErr, OnOk};
ghost use Rattle.c6x_spec.specs.Files.{Rose};
ghost use Rattle.c6x_machine.specs.Origin.{Origin};
ghost use Rattle.c6x_ports.specs.Sink.{Puts};
ghost use Rattle.c6x_sched.specs.Together.{AllStand, AreApart, AllLieOn, AreFramed};
ghost use Rattle.c6x_sched.specs.Play.{game_of};
ghost use Rattle.c6x_sched.specs.System.{processes_of, quantum_of};
ghost use Rattle.c6x_sched.specs.Turns.{ready_of};
ghost use Rattle.c6x_cli_run.specs.Told.{TellsTurns};
ghost use Rattle.c6x_cli_run.specs.TurnLines.{names_of, turn_line};

use c6x_base::Name;
use c6x_board::Board;
use c6x_plan::ProcessPlan;
use c6x_ports::{Policy, Sink, SinkError, put_parts};
use c6x_sched::System;
use itoa::Buffer;

/// Tells a turn.
#[tactic(auto, unfolding(crate::specs::TurnLines::turn_line))]
fn put_turn<O: Sink>(out: &mut O, process: &Name, cycles: u32) -> Result<(), SinkError>
    ensures { Puts (turn_line process.now cycles) (O.seen out.old) (O.seen out.new) result }
{
    let mut number = Buffer::new();
    let cycles = number.format(cycles).as_bytes();
    put_parts(out, &[b"turn ", process.as_bytes(), b" ", cycles, b"\n"])
}

/// Does turns of the policy's choice until every process has ended, and tells each behind it. Where a line could not be
/// put, nothing further is run.
pub fn play_turns<O: Sink>(
    system: &mut System,
    policy: &mut Box<dyn Policy>,
    plans: &[ProcessPlan],
    out: &mut O,
    board: &mut Board,
) -> Result<(), SinkError>
    requires on_board { AllLieOn board.old (processes_of system.old) }
    requires plans { length plans.now ≡ length (processes_of system.old) }
    ensures tells { (s : ℕ → Origin) (n : ℕ → ℕ) → AreApart (processes_of system.old)
        → AllStand (processes_of system.old) board.old s n
        → TellsTurns (names_of plans.now) (game_of (processes_of system.old) (quantum_of system.old) (chooser policy.old) s n) (processes_of system.new) board.new (chooser policy.new).state (O.seen out.old) (O.seen out.new) result }
    ensures done { OnOk result (ready_of (processes_of system.new) ≡ []) }
    ensures frame { AreFramed (processes_of system.old) board.old board.new }
    ensures count { length (processes_of system.new) ≡ length (processes_of system.old) }
    ensures kind { (chooser policy.new).kind ≡ (chooser policy.old).kind }
    ensures answered { OnOk result (ready_of (processes_of system.old) ≢ [] → Rose (chooser policy.old).answers (chooser policy.new).answers) }
    ensures failed { OnErr result (Rose (O.seen out.old).faults (O.seen out.new).faults) }
    ensures kept { (O.seen out.old).faults ≤ (O.seen out.new).faults }
{
    'turns: loop {
        match system.step(board, policy) {
            Some(turn) => put_turn(out, &plans[turn.process as usize].name, turn.cycles)?,
            None => return Ok(()),
        }
    }
}
