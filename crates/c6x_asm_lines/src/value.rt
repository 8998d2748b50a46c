use crate::primary::Primary;
use crate::word::Word;

/// An operand that is no address and no text.
#[derive(Clone, Copy)]
pub enum Value {
    Primary(Primary),
    /// `%kind(operand)`, or `%kind` alone.
    Kind { kind: Word, inner: Option<Primary> },
}
