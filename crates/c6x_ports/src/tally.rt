ghost use Rattle.std.specs.Prelude.{◌≡◌, ◌≤◌, Some};
ghost use Rattle.c6x_spec.specs.Files.{Rose};

use crate::pick::Pick;

/// The last answer of a policy, and how many it gave.
#[derive(Debug, Drop)]
pub(crate) struct Tally {
    pub(crate) last: Option<Pick>,
    pub(crate) answers: u64,
}

impl Tally {
    /// Before any answer.
    pub(crate) fn new() -> Tally
        ensures { result ≡ record { last = None; answers = 0 } }
    {
        Tally {
            last: None,
            answers: 0,
        }
    }

    /// Counts an answer.
    pub(crate) fn note(&mut self, pick: Pick)
        ensures last { self.new.last ≡ Some pick }
        ensures answered { Rose self.old.answers self.new.answers }
        ensures kept { self.old.answers ≤ self.new.answers }
    {
        self.last = Some(pick);
        self.answers = self.answers.saturating_add(1);
    }
}
