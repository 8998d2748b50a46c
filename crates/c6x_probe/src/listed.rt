use c6x_ports::{Kind, Pick, Policy};

/// A policy that answers from a list, and behind its end with its last answer, whatever is ready.
#[derive(Debug, Drop)]
pub struct Listed {
    picks: Vec<Pick>,
    next: usize,
    last: Option<Pick>,
    answers: u64,
}

impl Listed {
    /// A policy of these answers.
    pub fn new(picks: Vec<Pick>) -> Listed {
        Listed {
            picks,
            next: 0,
            last: None,
            answers: 0,
        }
    }
}

impl Policy for Listed {
    ghost use Rattle.std.specs.Prelude.{[]};
    ghost use Rattle.c6x_ports.specs.declared.kind.Kind.TheVariants.{Other as other};

    ghost chooser = { λ s. record { kind = other; state = []; last = s.last; answers = s.answers } };

    fn kind(&self) -> Kind {
        Kind::Other
    }

    fn begin(&mut self, _processes: u32, _quantum: u32, _seed: u32) {}

    fn choose(&mut self, _ready: &[u32]) -> Pick {
        let pick = match (self.picks.get(self.next), self.last) {
            (Some(pick), _) => *pick,
            (None, Some(last)) => last,
            (None, None) => Pick {
                process: 0,
                steps: 1,
            },
        };
        self.next = self.next.saturating_add(1);
        self.last = Some(pick);
        self.answers = self.answers.saturating_add(1);
        pick
    }
}
