ghost use Rattle.std.specs.Prelude.{◌≡◌, ◌≢◌, ◌%◌, ◌/◌, None, ℕ, ◌+◌, ◌<◌, List, length, slice_index, slice_set, unwrap_or};
ghost use Rattle.c6x_spec.specs.Memory.{Memory};
ghost use Rattle.c6x_encoding.specs.Registers.{place_of};
ghost use Rattle.c6x_machine.specs.History.{Effect};
ghost use Rattle.c6x_machine.specs.Origin.{Origin};
ghost use Rattle.c6x_exec.specs.Pending.{due, slot_of};
ghost use Rattle.c6x_exec.specs.Sound.{IsSound};
ghost use Rattle.c6x_exec.specs.Stands.{Tracks};

use crate::context::Context;
use crate::pending::write_slot;
use c6x_base::Side;
use c6x_isa::Regs;

/// Changes the register at a place.
fn set_register(registers: &mut Regs, register: u8, value: u32)
    requires { register < 64 }
    ensures { registers.new ≡ slice_set registers.old register value }
{
    if register < 32 {
        registers.set(Side::A, register, value);
    } else {
        registers.set(Side::B, register - 32, value);
    }
}

/// Puts what lands at a cycle on the register at a place there.
fn land_register(registers: &mut Regs, stamps: &[u32], values: &[u32], register: u8, at: u32)
    requires register { register < 64 }
    requires stamps { length stamps.now ≡ 512 }
    requires values { length values.now ≡ 512 }
    ensures { registers.new ≡ slice_set registers.old register (unwrap_or (due stamps.now values.now at register) (slice_index registers.old register)) }
{
    let slot = write_slot(at, register);
    if stamps[slot] == at {
        set_register(registers, register, values[slot]);
    }
}

/// Puts what lands at a cycle on the eight registers of a group there.
fn land_group(registers: &mut Regs, stamps: &[u32], values: &[u32], group: u8, at: u32)
    requires group { group < 8 }
    requires registers { length registers.old ≡ 64 }
    requires stamps { length stamps.now ≡ 512 }
    requires values { length values.now ≡ 512 }
    ensures whole { length registers.new ≡ 64 }
    ensures landed { (r : ℕ) → r / 8 ≡ group → slice_index registers.new r ≡ unwrap_or (due stamps.now values.now at r) (slice_index registers.old r) }
    ensures others { (r : ℕ) → r / 8 ≢ group → slice_index registers.new r ≡ slice_index registers.old r }
{
    for place in 0..8 {
        land_register(registers, stamps, values, group * 8 + place, at);
    }
}

/// Puts all that lands at a cycle into the registers.
fn land(registers: &mut Regs, stamps: &[u32], values: &[u32], groups: &[u32; 64], at: u32)
    requires registers { length registers.old ≡ 64 }
    requires stamps { length stamps.now ≡ 512 }
    requires values { length values.now ≡ 512 }
    requires groups { length groups.now ≡ 64 }
    ensures whole { length registers.new ≡ 64 }
    ensures landed { (r : ℕ) → r < 64 → (slice_index groups.now (slot_of at r / 8) ≢ at → due stamps.now values.now at r ≡ None) → slice_index registers.new r ≡ unwrap_or (due stamps.now values.now at r) (slice_index registers.old r) }
{
    for group in 0..8 {
        if groups[at as usize % 8 * 8 + group as usize] == at {
            land_group(registers, stamps, values, group, at);
        }
    }
}

/// The same, where something lands at the cycle at all.
fn land_due(
    registers: &mut Regs,
    stamps: &[u32],
    values: &[u32],
    arrivals: &[u32; 8],
    groups: &[u32; 64],
    at: u32,
)
    requires registers { length registers.old ≡ 64 }
    requires stamps { length stamps.now ≡ 512 }
    requires values { length values.now ≡ 512 }
    requires arrivals { length arrivals.now ≡ 8 }
    requires groups { length groups.now ≡ 64 }
    ensures whole { length registers.new ≡ 64 }
    ensures landed { (r : ℕ) → r < 64 → (slice_index arrivals.now (at % 8) ≢ at → due stamps.now values.now at r ≡ None) → (slice_index groups.now (slot_of at r / 8) ≢ at → due stamps.now values.now at r ≡ None) → slice_index registers.new r ≡ unwrap_or (due stamps.now values.now at r) (slice_index registers.old r) }
{
    if arrivals[at as usize % 8] == at {
        land(registers, stamps, values, groups, at);
    }
}

/// Goes on to the next cycle, at which what is due lands.
pub(crate) fn tick(p: &mut Context)
    requires sound { IsSound p.old }
    requires more { p.old.cycles < p.old.limit }
    ensures sound { IsSound p.new }
    ensures cycles { p.new.cycles ≡ p.old.cycles + 1 }
    ensures limit { p.new.limit ≡ p.old.limit }
    ensures ended { p.new.ended ≡ p.old.ended }
    ensures tracks { (b : Memory) (s : Origin) (h : List Effect) (n : ℕ) → Tracks p.old b s h n (n + 1) → Tracks p.new b s h (n + 1) (n + 1) }
{
    let now = p.cycles + 1;
    p.cycles = now;
    land_due(
        &mut p.registers,
        &p.writes.stamps,
        &p.writes.values,
        &p.writes.arrivals,
        &p.writes.groups,
        now,
    );
}
