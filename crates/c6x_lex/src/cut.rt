use crate::kind::TokenKind;

/// What stands at a place of a text: a token, or bytes that make none.
#[derive(Debug, Clone, Copy)]
pub struct Piece {
    pub kind: Option<TokenKind>,
    pub len: usize,
}
