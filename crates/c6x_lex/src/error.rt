ghost use Rattle.std.specs.Prelude.{◌≡◌};

use std::alloc::AllocError;
use thiserror::Error;

/// Why a text has no tokens.
#[derive(Debug, Drop, Error)]
pub enum LexError {
    /// No token, blank or comment starts at this byte. Lines and columns are counted from 1, and a
    /// column counts bytes.
    #[error("BadByte")]
    BadByte { line: u32, column: u32 },
    /// There was no memory for the tokens.
    #[error("NoMemory")]
    NoMemory,
}

impl From<AllocError> for LexError {
    ghost use Rattle.c6x_lex.specs.declared.error.LexError.TheVariants.{NoMemory as no_memory};

    ghost from_gives = { λ _ e. e ≡ no_memory };

    fn from(_: AllocError) -> LexError {
        LexError::NoMemory
    }
}
