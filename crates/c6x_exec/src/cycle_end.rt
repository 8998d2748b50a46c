ghost use Rattle.std.specs.Prelude.{◌≡◌, ◌≢◌, ℕ, ◌+◌, ◌<◌, List, None};
ghost use Rattle.c6x_spec.specs.Memory.{Memory};
ghost use Rattle.c6x_machine.specs.History.{Effect};
ghost use Rattle.c6x_machine.specs.Machine.{Outcome, after, limit_end};
ghost use Rattle.c6x_machine.specs.Origin.{Origin};
ghost use Rattle.c6x_machine.specs.Packet.{◌<|>◌};
ghost use Rattle.c6x_exec.specs.Sound.{IsSound, IsWithin};
ghost use Rattle.c6x_exec.specs.Stands.{Comes, Keeps};

use crate::context::Context;
use crate::register_file::tick;
use c6x_machine::End;

/// The end of a process that has done this many cycles without another one.
#[tactic(auto, unfolding(c6x_machine::specs::Machine::limit_end))]
fn limit_end(limit: u32, cycles: u32) -> Option<End>
    ensures value { result ≡ limit_end limit cycles }
    ensures open { result ≡ None → cycles ≢ limit }
{
    if cycles == limit {
        Some(End::Limit)
    } else {
        None
    }
}

/// The cycle's own end, else the limit's.
fn end_of(end: Option<End>, limit: u32, cycles: u32) -> Option<End>
    ensures value { result ≡ (end <|> limit_end limit cycles) }
    ensures open { result ≡ None → cycles ≢ limit }
{
    match end {
        Some(end) => Some(end),
        None => limit_end(limit, cycles),
    }
}

/// Ends a cycle: what is due lands, and the cycle's own end counts before the limit's.
pub(crate) fn end_cycle(p: &mut Context, end: Option<End>)
    requires sound { IsSound p.old }
    requires more { p.old.cycles < p.old.limit }
    ensures sound { IsSound p.new }
    ensures within { IsWithin p.new }
    ensures cycles { p.new.cycles ≡ p.old.cycles + 1 }
    ensures limit { p.new.limit ≡ p.old.limit }
    ensures keeps { (b : Memory) (s : Origin) (h : List Effect) (n : ℕ) (o : Outcome) → Comes end o p.old b s h n → Keeps p.new b s (after s.limit (n + 1) h o) }
{
    tick(p);
    p.ended = end_of(end, p.limit, p.cycles);
}
