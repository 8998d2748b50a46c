use crate::kind::TokenKind;

/// A token of a text.
#[derive(Debug, Clone, Copy, PartialEq, Eq)]
pub struct Token {
    /// What it is.
    pub kind: TokenKind,
    /// The offset of its first byte in the text.
    pub at: u32,
    /// The number of its bytes.
    pub len: u32,
    /// The line that it stands on, counted from 1.
    pub line: u32,
}
