/// An instruction of a section.
#[derive(Clone, Copy)]
pub struct InstrWord {
    /// The line that it stands on.
    pub line: u32,
    /// `||` stands before it.
    pub chained: bool,
    pub word: u32,
}
