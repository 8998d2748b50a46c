ghost use Rattle.std.specs.Prelude.{◌≡◌, None};
ghost use Rattle.c6x_ports.specs.declared.kind.Kind.TheVariants.{Drawn};
ghost use Rattle.c6x_ports.specs.Picks.{begun};

use crate::draw::{drawn_pick, next_drawn};
use crate::kind::Kind;
use crate::pick::Pick;
use crate::policy::Policy;
use crate::tally::Tally;
use std::marker::Model;

/// The policy that draws a ready process and a number of steps by a seed.
#[derive(Debug, Drop)]
pub struct DrawnBySeed {
    processes: u32,
    quantum: u32,
    drawn: u32,
    tally: Tally,
}

impl Model for DrawnBySeed {
    ghost use Rattle.std.specs.Prelude.{◌∷◌, [], ◌≤◌};
    ghost use Rattle.c6x_ports.specs.Chooser.{Chooser};
    ghost use Rattle.c6x_ports.specs.declared.kind.Kind.TheVariants.{Drawn};

    ghost Value = { Chooser };

    ghost view = { λ p. record {
      kind = Drawn;
      state = p.processes ∷ p.quantum ∷ p.drawn ∷ [];
      last = p.tally.last;
      answers = p.tally.answers;
    } };

    ghost invariant = { λ p. 1 ≤ p.quantum };
}

impl DrawnBySeed {
    /// As it is after `begin(1, 1, 0)`, before any answer. It takes no memory.
    pub fn new() -> DrawnBySeed
        ensures { result ≡ record { kind = Drawn; state = begun Drawn 1 1 0; last = None; answers = 0 } }
    {
        DrawnBySeed {
            processes: 1,
            quantum: 1,
            drawn: 0,
            tally: Tally::new(),
        }
    }
}

impl Policy for DrawnBySeed {
    ghost use Rattle.c6x_ports.specs.declared.kind.Kind.TheVariants.{Drawn};

    ghost chooser = { λ p. record p { kind = Drawn } };

    fn kind(&self) -> Kind {
        Kind::Drawn
    }

    fn begin(&mut self, processes: u32, quantum: u32, seed: u32) {
        self.processes = processes;
        self.quantum = quantum;
        self.drawn = seed;
    }

    #[tactic(auto, unfolding(crate::specs::Picks::pick_of))]
    fn choose(&mut self, ready: &[u32]) -> Pick {
        self.drawn = next_drawn(self.drawn);
        let pick = drawn_pick(self.quantum, self.drawn, ready);
        self.tally.note(pick);
        pick
    }
}
