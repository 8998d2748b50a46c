use c6x_ports::{Kind, Pick, Policy};

/// A policy of one's own, to try and to change: each process runs to its end before the next begins.
///
/// It picks the first process of the plan that has not ended, for whole turns.
#[derive(Debug, Drop)]
pub struct InOrder {
    quantum: u32,
    last: Option<Pick>,
    answers: u64,
}

impl InOrder {
    /// A policy that has not begun.
    pub fn new() -> InOrder {
        InOrder {
            quantum: 1,
            last: None,
            answers: 0,
        }
    }
}

impl Policy for InOrder {
    ghost use Rattle.std.specs.Prelude.{[], ◌∷◌};
    ghost use Rattle.c6x_ports.specs.declared.kind.Kind.TheVariants.{Other as other};

    ghost chooser = { λ s. record { kind = other; state = s.quantum ∷ []; last = s.last; answers = s.answers } };

    fn kind(&self) -> Kind {
        Kind::Other
    }

    fn begin(&mut self, _processes: u32, quantum: u32, _seed: u32) {
        self.quantum = quantum;
    }

    fn choose(&mut self, ready: &[u32]) -> Pick {
        let pick = Pick {
            process: ready[0],
            steps: self.quantum,
        };
        self.last = Some(pick);
        self.answers = self.answers.saturating_add(1);
        pick
    }
}
