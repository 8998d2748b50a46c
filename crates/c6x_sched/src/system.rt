ghost use Rattle.std.specs.Prelude.{◌≤◌, length, vec_capacity};
ghost use Rattle.c6x_ports.specs.declared.limits.TheConstants.{MOST_PROCESSES};

use crate::chosen::chosen;
use crate::loaded::Loaded;
use crate::one_turn::run_picked;
use crate::ready::list_ready;
use crate::turn::Turn;
use c6x_board::Board;
use c6x_exec::Process;
use c6x_ports::{Pick, Policy};

/// Processes that take turns, and how many cycles a turn has at most. It keeps no bytes of memory, and no call of it takes
/// any.
#[derive(Drop)]
pub struct System {
    processes: Vec<Process>,
    ready: Vec<u32>,
    quantum: u32,
    ghost room: { length processes.items ≤ vec_capacity ready },
    ghost few: { length processes.items ≤ MOST_PROCESSES },
    ghost some: { 1 ≤ quantum },
}

impl System {
    ghost use Rattle.std.specs.Prelude.{◌≡◌, ◌≢◌, ℕ, ◌<◌, [], slice_get, Some, IfNone, IfSome};
    ghost use Rattle.c6x_spec.specs.Files.{Rose};
    ghost use Rattle.c6x_machine.specs.Machine.{life};
    ghost use Rattle.c6x_machine.specs.Origin.{Origin};
    ghost use Rattle.c6x_ports.specs.declared.limits.TheConstants.{MOST_QUANTUM};
    ghost use Rattle.c6x_sched.specs.Together.{AllStand, AreApart, AllLieOn, AreFramed};
    ghost use Rattle.c6x_sched.specs.Ended.{AllEnded, AllHaveLived};
    ghost use Rattle.c6x_sched.specs.Play.{HasPlayed, game_of};
    ghost use Rattle.c6x_sched.specs.Step.{IsTurnOf, HasStepped};
    ghost use Rattle.c6x_sched.specs.System.{processes_of, quantum_of};
    ghost use Rattle.c6x_sched.specs.Turns.{ready_of};

    /// The system of these processes.
    pub fn of(loaded: Loaded, quantum: u32) -> System
        requires least { 1 ≤ quantum }
        requires most { quantum ≤ MOST_QUANTUM }
        requires some { 1 ≤ length loaded.processes.items }
        requires few { length loaded.processes.items ≤ MOST_PROCESSES }
        requires empty { loaded.ready.items ≡ [] }
        requires room { length loaded.processes.items ≤ vec_capacity loaded.ready }
        ensures processes { processes_of result ≡ loaded.processes.items }
        ensures quantum { quantum_of result ≡ quantum }
    {
        System {
            processes: loaded.processes,
            ready: loaded.ready,
            quantum,
        }
    }

    /// The process with this number.
    pub fn process(&self, number: u32) -> &Process
        requires { number < length (processes_of self.now) }
        ensures { slice_get (processes_of self.now) number ≡ Some result.now }
    {
        &self.processes[number as usize]
    }

    /// Does the turn that a pick stands for: the effective process runs the effective steps, or up to its end.
    pub fn turn(&mut self, board: &mut Board, pick: Pick) -> Turn
        requires open { ready_of (processes_of self.old) ≢ [] }
        requires on_board { AllLieOn board.old (processes_of self.old) }
        ensures { IsTurnOf self.old self.new board.old board.new pick result }
    {
        list_ready(&mut self.ready, &self.processes);
        run_picked(&mut self.processes, &self.ready, self.quantum, board, pick)
    }

    /// Asks the policy, and does the turn of its answer. `None` where every process has ended; then the policy is not
    /// asked.
    pub fn step(&mut self, board: &mut Board, policy: &mut Box<dyn Policy>) -> Option<Turn>
        requires on_board { AllLieOn board.old (processes_of self.old) }
        ensures none { IfNone result (ready_of (processes_of self.old) ≡ []) }
        ensures idle { IfNone result ((processes_of self.new ≡ processes_of self.old) × (quantum_of self.new ≡ quantum_of self.old) × (board.new ≡ board.old) × (policy.new ≡ policy.old)) }
        ensures turned { IfSome result (HasStepped self.old self.new board.old board.new (chooser policy.old) (chooser policy.new)) }
    {
        list_ready(&mut self.ready, &self.processes);
        if self.ready.as_slice().is_empty() {
            return None;
        }
        let pick = chosen(policy, &self.ready);
        Some(self.turn(board, pick))
    }

    /// Does turns of the policy's choice until every process has ended.
    pub fn run(&mut self, board: &mut Board, policy: &mut Box<dyn Policy>)
        requires on_board { AllLieOn board.old (processes_of self.old) }
        ensures done { ready_of (processes_of self.new) ≡ [] }
        ensures ended { AllEnded (processes_of self.new) }
        ensures lives { (s : ℕ → Origin) (n : ℕ → ℕ) → AreApart (processes_of self.old)
            → AllStand (processes_of self.old) board.old s n → AllStand (processes_of self.new) board.new s (λ i. life (s i)) }
        ensures ran { (s : ℕ → Origin) (n : ℕ → ℕ) → AreApart (processes_of self.old)
            → AllStand (processes_of self.old) board.old s n → AllHaveLived (processes_of self.new) board.new s }
        ensures played { (s : ℕ → Origin) (n : ℕ → ℕ) → AreApart (processes_of self.old)
            → AllStand (processes_of self.old) board.old s n
            → HasPlayed (game_of (processes_of self.old) (quantum_of self.old) (chooser policy.old) s n) (processes_of self.new) board.new (chooser policy.new).state }
        ensures frame { AreFramed (processes_of self.old) board.old board.new }
        ensures apart { AreApart (processes_of self.old) → AreApart (processes_of self.new) }
        ensures lie { AllLieOn board.new (processes_of self.new) }
        ensures length { length (processes_of self.new) ≡ length (processes_of self.old) }
        ensures quantum { quantum_of self.new ≡ quantum_of self.old }
        ensures kind { (chooser policy.new).kind ≡ (chooser policy.old).kind }
        ensures answered { ready_of (processes_of self.old) ≢ [] → Rose (chooser policy.old).answers (chooser policy.new).answers }
        ensures unasked { ready_of (processes_of self.old) ≡ [] → policy.new ≡ policy.old }
    {
        'turns: loop {
            match self.step(board, policy) {
                Some(_) => {}
                None => return,
            }
        }
    }
}
