ghost use Rattle.std.specs.Prelude.{◌≡◌, ℕ, ◌+◌, ◌%◌, ◌<◌, ◌≤◌, ◌∷◌, List, length, IfSome};
ghost use Rattle.c6x_spec.specs.Memory.{Memory};
ghost use Rattle.c6x_encoding.specs.Registers.{place_of};
ghost use Rattle.c6x_encoding.specs.Rows.{FitsWrite};
ghost use Rattle.c6x_machine.specs.History.{Effect, Writes, Branches, Issues};
ghost use Rattle.c6x_machine.specs.Origin.{Origin};
ghost use Rattle.c6x_machine.specs.Packet.{with_write, with_target};
ghost use Rattle.c6x_exec.specs.Pending.{slot_of, is_due};
ghost use Rattle.c6x_exec.specs.Sound.{IsSound, Stays};
ghost use Rattle.c6x_exec.specs.Stands.{Tracks};

use crate::context::Context;
use c6x_base::Side;
use c6x_isa::Write;

/// The place of a register among all 64.
pub(crate) fn register_place(side: Side, register: u8) -> u8
    requires { register < 32 }
    ensures value { result ≡ place_of side register }
    ensures below { result < 64 }
{
    match side {
        Side::A => register,
        Side::B => register + 32,
    }
}

/// The slot of a write that lands at a cycle on the register at this place.
pub(crate) fn write_slot(at: u32, register: u8) -> usize
    requires { register < 64 }
    ensures value { result ≡ slot_of at register }
    ensures within { result < 512 }
{
    at as usize % 8 * 64 + register as usize
}

/// Whether an earlier write lands at a cycle on the register at this place.
pub(crate) fn is_write_pending(p: &Context, at: u32, register: u8) -> bool
    requires sound { IsSound p.now }
    requires register { register < 64 }
    ensures { result ≡ is_due p.now.writes.stamps p.now.writes.values at register }
{
    p.writes.stamps[write_slot(at, register)] == at
}

/// Notes a write of the current cycle.
pub(crate) fn note_write(p: &mut Context, write: &Write)
    requires sound { IsSound p.old }
    requires fits { FitsWrite write.now }
    ensures sound { IsSound p.new }
    ensures stays { Stays p.old p.new }
    ensures tracks { (b : Memory) (s : Origin) (h : List Effect) (n : ℕ) → Tracks p.old b s h n (n + 1) → Tracks p.new b s (Writes (n + 1 + write.now.delay) (place_of write.now.side write.now.register) write.now.value ∷ h) n (n + 1) }
{
    let at = p.cycles + 1 + write.delay as u32;
    let slot = write_slot(at, register_place(write.side, write.register));
    p.writes.arrivals[at as usize % 8] = at;
    p.writes.groups[slot / 8] = at;
    p.writes.stamps[slot] = at;
    p.writes.values[slot] = write.value;
}

/// Notes the write of a row, if it has one.
pub(crate) fn note_result(p: &mut Context, written: &Option<Write>)
    requires sound { IsSound p.old }
    requires fits { IfSome written.now FitsWrite }
    ensures sound { IsSound p.new }
    ensures stays { Stays p.old p.new }
    ensures tracks { (b : Memory) (s : Origin) (h : List Effect) (n : ℕ) → Tracks p.old b s h n (n + 1) → Tracks p.new b s (with_write written.now n h) n (n + 1) }
{
    if let Some(write) = written {
        note_write(p, write);
    }
}

/// Notes a target that lands some cycles after the current one.
pub(crate) fn note_branch(p: &mut Context, target: u32, delay: u32)
    requires sound { IsSound p.old }
    requires some { 1 ≤ delay }
    requires soon { delay ≤ 6 }
    ensures sound { IsSound p.new }
    ensures stays { Stays p.old p.new }
    ensures tracks { (b : Memory) (s : Origin) (h : List Effect) (n : ℕ) → Tracks p.old b s h n (n + 1) → Tracks p.new b s (Branches (n + delay) target ∷ h) n (n + 1) }
{
    let at = p.cycles + delay;
    let slot = at as usize % 8;
    p.targets.stamps[slot] = at;
    p.targets.addresses[slot] = target;
}

/// Notes the target of a row, if it has one.
pub(crate) fn note_target(p: &mut Context, target: Option<u32>)
    requires sound { IsSound p.old }
    ensures sound { IsSound p.new }
    ensures stays { Stays p.old p.new }
    ensures tracks { (b : Memory) (s : Origin) (h : List Effect) (n : ℕ) → Tracks p.old b s h n (n + 1) → Tracks p.new b s (with_target target n h) n (n + 1) }
{
    if let Some(target) = target {
        note_branch(p, target, 6);
    }
}

/// Notes the issue of the current cycle: the address behind it and the cycles that it waits.
pub(crate) fn note_issue(p: &mut Context, next: u32, wait: u8)
    requires sound { IsSound p.old }
    ensures sound { IsSound p.new }
    ensures stays { Stays p.old p.new }
    ensures tracks { (b : Memory) (s : Origin) (h : List Effect) (n : ℕ) → Tracks p.old b s h n (n + 1) → Tracks p.new b s (Issues n next wait ∷ h) n (n + 1) }
{
    p.ready = p.cycles + 1 + wait as u32;
    p.next = next;
}
