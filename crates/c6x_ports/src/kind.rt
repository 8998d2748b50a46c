/// What is known of how a policy picks.
#[derive(Clone, Copy, Debug, PartialEq, Eq)]
pub enum Kind {
    /// The next ready process, going round.
    Round,
    /// The last ready process.
    Last,
    /// A ready process and a number of steps, drawn by a seed.
    Drawn,
    /// Nothing is known.
    Other,
}
