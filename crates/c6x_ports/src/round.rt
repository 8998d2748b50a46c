ghost use Rattle.std.specs.Prelude.{◌≡◌, None};
ghost use Rattle.c6x_ports.specs.declared.kind.Kind.TheVariants.{Round};
ghost use Rattle.c6x_ports.specs.Picks.{begun};

use crate::kind::Kind;
use crate::next::next_from;
use crate::pick::Pick;
use crate::policy::Policy;
use crate::tally::Tally;
use std::marker::Model;

/// The policy that goes round: the next ready process, for a whole quantum.
#[derive(Debug, Drop)]
pub struct RoundRobin {
    processes: u32,
    quantum: u32,
    next: u32,
    tally: Tally,
}

impl Model for RoundRobin {
    ghost use Rattle.std.specs.Prelude.{◌∷◌, []};
    ghost use Rattle.c6x_ports.specs.Chooser.{Chooser};
    ghost use Rattle.c6x_ports.specs.declared.kind.Kind.TheVariants.{Round};

    ghost Value = { Chooser };

    ghost view = { λ p. record {
      kind = Round;
      state = p.processes ∷ p.quantum ∷ p.next ∷ [];
      last = p.tally.last;
      answers = p.tally.answers;
    } };
}

impl RoundRobin {
    /// As it is after `begin(1, 1, 0)`, before any answer. It takes no memory.
    pub fn new() -> RoundRobin
        ensures { result ≡ record { kind = Round; state = begun Round 1 1 0; last = None; answers = 0 } }
    {
        RoundRobin {
            processes: 1,
            quantum: 1,
            next: 0,
            tally: Tally::new(),
        }
    }
}

impl Policy for RoundRobin {
    ghost use Rattle.c6x_ports.specs.declared.kind.Kind.TheVariants.{Round};

    ghost chooser = { λ p. record p { kind = Round } };

    fn kind(&self) -> Kind {
        Kind::Round
    }

    fn begin(&mut self, processes: u32, quantum: u32, _seed: u32) {
        self.processes = processes;
        self.quantum = quantum;
        self.next = 0;
    }

    #[tactic(auto, unfolding(crate::specs::Picks::pick_of))]
    fn choose(&mut self, ready: &[u32]) -> Pick {
        let process = next_from(ready, self.next);
        let pick = Pick {
            process,
            steps: self.quantum,
        };
        self.next = process + 1;
        self.tally.note(pick);
        pick
    }
}
