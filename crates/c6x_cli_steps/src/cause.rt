use c6x_base::{Line, Name};

/// The first broken rule, as its line names it.
#[derive(Debug, Drop)]
pub struct Refusal {
    /// The code and the word of the rule.
    pub rule: Line,
    /// The file, module, process or name that breaks it.
    pub subject: Name,
    /// The place in it: the rule says what it counts.
    pub number: u32,
}

/// Why the files and words themselves end a command: what stops it whatever the devices do.
#[derive(Debug, Drop)]
pub enum Cause {
    /// The words have no reading.
    Usage,
    /// A file of this name is not on the shelf.
    Missing(Name),
    Refused(Refusal),
}
