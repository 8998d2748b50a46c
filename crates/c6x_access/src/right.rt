/// What a process may do with a byte (this project's own).
#[derive(Clone, Copy, Debug, PartialEq, Eq)]
pub enum Right {
    /// To load it.
    Read,
    /// To store to it.
    Write,
    /// To fetch it as part of a word of code.
    Run,
}
