ghost use Rattle.std.specs.Prelude.{◌≡◌, ◌∷◌, ℕ, ◌+◌, ◌<◌, ◌≤◌, List, length, nat_le, is_some, true, ◌⊎◌, vec_len};
ghost use Rattle.c6x_spec.specs.Memory.{Memory};
ghost use Rattle.c6x_machine.specs.History.{Effect, Puts};
ghost use Rattle.c6x_machine.specs.Machine.{put_of};
ghost use Rattle.c6x_machine.specs.Origin.{Origin, most_output};
ghost use Rattle.c6x_exec.specs.Pending.{target_due};
ghost use Rattle.c6x_exec.specs.Sound.{IsSound, Stays};
ghost use Rattle.c6x_exec.specs.Stands.{Tracks, Comes};

use crate::context::Context;
use crate::gate::PUT_GATE;
use crate::limits::MOST_OUTPUT;
use crate::pending::{note_branch, note_issue};
use c6x_base::Side;
use c6x_machine::{End, FaultKind};

/// Whether a target lands at the next cycle.
#[tactic(auto, unfolding(crate::specs::Pending::stamped))]
fn is_target_pending(p: &Context) -> bool
    requires sound { IsSound p.now }
    ensures { result ≡ is_some (target_due p.now.targets.stamps p.now.targets.addresses (p.now.cycles + 1)) }
{
    let at = p.cycles + 1;
    p.targets.stamps[at as usize % 8] == at
}

/// Whether the output has no more room.
#[tactic(auto, unfolding(c6x_machine::specs::Origin::most_output))]
fn is_full(p: &Context) -> bool
    requires sound { IsSound p.now }
    ensures value { result ≡ nat_le most_output (length p.now.output.items) }
    ensures room { (result ≡ true) ⊎ (vec_len p.now.output < most_output) }
{
    p.output.len() >= MOST_OUTPUT
}

/// Puts a byte at the current cycle.
fn note_put(p: &mut Context, byte: u8)
    requires sound { IsSound p.old }
    requires room { vec_len p.old.output < most_output }
    ensures sound { IsSound p.new }
    ensures stays { Stays p.old p.new }
    ensures tracks { (b : Memory) (s : Origin) (h : List Effect) (n : ℕ) → Tracks p.old b s h n (n + 1) → Tracks p.new b s (Puts n byte ∷ h) n (n + 1) }
{
    match p.output.push(byte) {
        Ok(()) => {}
        Err(_) => unreachable!(),
    }
}

/// Does what the put gate does at the current cycle, unless it is faulty.
pub(crate) fn put(p: &mut Context) -> Option<End>
    requires sound { IsSound p.old }
    ensures sound { IsSound p.new }
    ensures stays { Stays p.old p.new }
    ensures comes { (b : Memory) (s : Origin) (h : List Effect) (n : ℕ) → Tracks p.old b s h n n → Comes result (put_of s h n) p.new b s h n }
{
    if is_target_pending(p) {
        return Some(End::Fault(FaultKind::TwoBranches, PUT_GATE));
    }
    if is_full(p) {
        return Some(End::Fault(FaultKind::OutputFull, PUT_GATE));
    }
    let byte = p.registers.get(Side::A, 4);
    let target = p.registers.get(Side::B, 3);
    note_put(p, (byte % 256) as u8);
    note_issue(p, PUT_GATE + 4, 0);
    note_branch(p, target, 1);
    None
}
