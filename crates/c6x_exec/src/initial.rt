ghost use Rattle.std.specs.Prelude.{◌≡◌, ◌≢◌, ℕ, ◌%◌, ◌<◌, ◌≤◌, [], List, None, length, slice_index, vec_len, vec_capacity, false};
ghost use Rattle.c6x_spec.specs.Memory.{Memory};
ghost use Rattle.c6x_access.specs.declared.area.Area.{Area};
ghost use Rattle.c6x_machine.specs.History.{registers_at};
ghost use Rattle.c6x_machine.specs.Origin.{most_cycles, most_output, origin_of, start_register};
ghost use Rattle.c6x_exec.specs.Sound.{IsSound, IsWithin};
ghost use Rattle.c6x_exec.specs.Stands.{Tracks, HoldsBytes};

use crate::context::Context;
use crate::gate::EXIT_GATE;
use crate::pending_slots::{PendingTargets, PendingWrites};
use c6x_base::Side;
use c6x_isa::Regs;
use c6x_machine::Start;

/// Slots without a stamp: no write lands at cycle 0.
fn no_writes() -> [u32; 512]
    ensures whole { length result ≡ 512 }
    ensures zeros { (i : ℕ) → slice_index result i ≡ 0 }
{
    [0; 512]
}

/// Slots whose stamps are of no cycle that has them.
fn no_stamps() -> [u32; 8]
    ensures whole { length result ≡ 8 }
    ensures none { (t : ℕ) → slice_index result (t % 8) ≢ t }
{
    [1, 0, 0, 0, 0, 0, 0, 0]
}

/// The start registers.
fn start_registers(start: &Start) -> Regs
    ensures { result ≡ registers_at (start_register start.now) [] 0 }
{
    let mut registers = Regs::zero();
    registers.set(Side::A, 4, start.arg);
    registers.set(Side::B, 3, EXIT_GATE);
    registers.set(Side::B, 14, start.b14);
    registers.set(Side::B, 15, start.b15);
    registers
}

/// A process before its first cycle.
pub(crate) fn initial_context(start: &Start, output: Vec<u8>) -> Context
    requires some { 1 ≤ start.now.limit }
    requires most { start.now.limit ≤ most_cycles }
    requires empty { output.items ≡ [] }
    requires none { vec_len output ≡ 0 }
    requires room { most_output ≤ vec_capacity output }
    ensures sound { IsSound result }
    ensures within { IsWithin result }
    ensures running { result.ended ≡ None }
    ensures tracks { (b : Memory) (bytes : ℕ → ℕ) (areas : List Area) → HoldsBytes b bytes areas → Tracks result b (origin_of false start.now bytes areas) [] 0 0 }
{
    Context {
        registers: start_registers(start),
        writes: PendingWrites {
            stamps: no_writes(),
            values: no_writes(),
            arrivals: no_stamps(),
            groups: [0; 64],
        },
        targets: PendingTargets {
            stamps: no_stamps(),
            addresses: no_stamps(),
        },
        cycles: 0,
        limit: start.limit,
        ready: 0,
        next: start.entry,
        output,
        ended: None,
    }
}
