ghost use Rattle.c6x_exec.specs.Sound.{IsSound, IsWithin};

use crate::context::Context;
use crate::initial::initial_context;
use crate::known::KnownPackets;
use crate::limits::MOST_OUTPUT;
use crate::step::{advance, wait};
use c6x_access::Map;
use c6x_base::Side;
use c6x_board::Board;
use c6x_machine::{End, Start};
use std::alloc::{AllocError, Global};

/// A process: its areas, its registers, what is to land in them, and its output. It keeps no memory of its own, and is told
/// the board at each cycle.
#[derive(Drop)]
pub struct Process {
    map: Map,
    context: Context,
    packets: KnownPackets,
    ghost sound: { IsSound context },
    ghost within: { IsWithin context },
}

impl Process {
    ghost use Rattle.std.specs.Prelude.{◌≡◌, ℕ, ◌+◌, ◌<◌, ◌≤◌, List, IfOk, None, Some, false};
    ghost use Rattle.c6x_spec.specs.Memory.{Memory};
    ghost use Rattle.c6x_encoding.specs.Registers.{place_of};
    ghost use Rattle.c6x_machine.specs.declared.end.End.{End};
    ghost use Rattle.c6x_exec.specs.Stands.{HoldsBytes};
    ghost use Rattle.c6x_board.specs.Lane.{LieOn};
    ghost use Rattle.c6x_exec.specs.Fits.{IsFramed};
    ghost use Rattle.c6x_machine.specs.History.{register_at, output_of};
    ghost use Rattle.c6x_machine.specs.Machine.{alone, life};
    ghost use Rattle.c6x_machine.specs.Origin.{Origin, most_cycles, origin_of};
    ghost use Rattle.c6x_exec.specs.Process.{areas_of, ended_of, cycles_of, limit_of, StandsFor, HasRun};

    /// A process before its first cycle, with these areas. Its output has room for 65,536 bytes, and none of its cycles
    /// takes memory.
    #[tactic(auto, unfolding(c6x_machine::specs::Origin::most_output))]
    pub fn new(alloc: Global, start: Start, map: Map) -> Result<Process, AllocError>
        requires some { 1 ≤ start.limit }
        requires most { start.limit ≤ most_cycles }
        ensures stands { IfOk result (λ process. (b : Memory) (bytes : ℕ → ℕ) → HoldsBytes b bytes map → StandsFor process b (origin_of false start bytes map) 0) }
        ensures areas { IfOk result (λ process. areas_of process ≡ map) }
        ensures running { IfOk result (λ process. ended_of process ≡ None) }
    {
        let output = Vec::with_capacity(alloc, MOST_OUTPUT)?;
        let context = initial_context(&start, output);
        Ok(Process {
            map,
            context,
            packets: KnownPackets::new(),
        })
    }

    /// How the process ended, if it has.
    pub fn ended(&self) -> Option<End>
        ensures value { result ≡ ended_of self.now }
        ensures told { (b : Memory) (s : Origin) (n : ℕ) → StandsFor self.now b s n → result ≡ (alone s n).ended }
        ensures ran { (b : Memory) (s : Origin) (end : End) → HasRun self.now b s end → result ≡ Some end }
    {
        self.context.ended
    }

    /// How many cycles the process has done.
    pub fn cycles(&self) -> u32
        ensures told { (b : Memory) (s : Origin) (n : ℕ) → StandsFor self.now b s n → result ≡ n }
        ensures lives { (b : Memory) (s : Origin) (n : ℕ) → StandsFor self.now b s n → n ≤ life s }
        ensures ran { (b : Memory) (s : Origin) (end : End) → HasRun self.now b s end → result ≡ life s }
    {
        self.context.cycles
    }

    /// The bytes that the process has put.
    pub fn output(&self) -> &[u8]
        ensures told { (b : Memory) (s : Origin) (n : ℕ) → StandsFor self.now b s n → result.now ≡ output_of (alone s n).history }
        ensures ran { (b : Memory) (s : Origin) (end : End) → HasRun self.now b s end → result.now ≡ output_of (alone s s.limit).history }
    {
        self.context.output.as_slice()
    }

    /// The value that the next cycle would read in a register.
    pub fn register(&self, side: Side, number: u8) -> u32
        requires { number < 32 }
        ensures told { (b : Memory) (s : Origin) (n : ℕ) → StandsFor self.now b s n → result ≡ register_at s.registers (alone s n).history n (place_of side number) }
    {
        self.context.registers.get(side, number)
    }

    /// Does cycles at which nothing is issued, this many at most, and tells how many. It stops before one at which something
    /// is issued and before the last one.
    pub(crate) fn wait_out(&mut self, most: u32) -> u32
        requires running { ended_of self.old ≡ None }
        ensures few { result ≤ most }
        ensures stands { (b : Memory) (s : Origin) (n : ℕ) → StandsFor self.old b s n → StandsFor self.new b s (n + result) }
        ensures running { ended_of self.new ≡ None }
        ensures areas { areas_of self.new ≡ areas_of self.old }
        ensures cycles { cycles_of self.new ≡ cycles_of self.old + result }
        ensures limit { limit_of self.new ≡ limit_of self.old }
    {
        let mut done = 0;
        while done < most {
            if !wait(&mut self.context) {
                return done;
            }
            done += 1;
        }
        done
    }

    /// Does one cycle.
    pub(crate) fn advance(&mut self, board: &mut Board)
        requires running { ended_of self.old ≡ None }
        requires on_board { LieOn board.old (areas_of self.old) }
        ensures stands { (s : Origin) (n : ℕ) → StandsFor self.old board.old s n → StandsFor self.new board.new s (n + 1) }
        ensures areas { areas_of self.new ≡ areas_of self.old }
        ensures cycles { cycles_of self.new ≡ cycles_of self.old + 1 }
        ensures limit { limit_of self.new ≡ limit_of self.old }
        ensures more { cycles_of self.old < limit_of self.old }
        ensures frame { IsFramed (areas_of self.old) board.old board.new }
    {
        let mut lane = board.lend(&self.map);
        advance(&mut self.context, &mut lane, &mut self.packets);
    }
}
