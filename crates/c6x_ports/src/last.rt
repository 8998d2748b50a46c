ghost use Rattle.std.specs.Prelude.{◌≡◌, None};
ghost use Rattle.c6x_ports.specs.declared.kind.Kind.TheVariants.{Last};
ghost use Rattle.c6x_ports.specs.Picks.{begun};

use crate::kind::Kind;
use crate::pick::Pick;
use crate::policy::Policy;
use crate::tally::Tally;
use std::marker::Model;

/// The policy that takes the last ready process, for a whole quantum.
#[derive(Debug, Drop)]
pub struct LastFirst {
    processes: u32,
    quantum: u32,
    tally: Tally,
}

impl Model for LastFirst {
    ghost use Rattle.std.specs.Prelude.{◌∷◌, []};
    ghost use Rattle.c6x_ports.specs.Chooser.{Chooser};
    ghost use Rattle.c6x_ports.specs.declared.kind.Kind.TheVariants.{Last};

    ghost Value = { Chooser };

    ghost view = { λ p. record {
      kind = Last;
      state = p.processes ∷ p.quantum ∷ [];
      last = p.tally.last;
      answers = p.tally.answers;
    } };
}

impl LastFirst {
    /// As it is after `begin(1, 1, 0)`, before any answer. It takes no memory.
    pub fn new() -> LastFirst
        ensures { result ≡ record { kind = Last; state = begun Last 1 1 0; last = None; answers = 0 } }
    {
        LastFirst {
            processes: 1,
            quantum: 1,
            tally: Tally::new(),
        }
    }
}

impl Policy for LastFirst {
    ghost use Rattle.c6x_ports.specs.declared.kind.Kind.TheVariants.{Last};

    ghost chooser = { λ p. record p { kind = Last } };

    fn kind(&self) -> Kind {
        Kind::Last
    }

    fn begin(&mut self, processes: u32, quantum: u32, _seed: u32) {
        self.processes = processes;
        self.quantum = quantum;
    }

    #[tactic(auto, unfolding(crate::specs::Picks::pick_of))]
    fn choose(&mut self, ready: &[u32]) -> Pick {
        let pick = Pick {
            process: ready[ready.len() - 1],
            steps: self.quantum,
        };
        self.tally.note(pick);
        pick
    }
}
