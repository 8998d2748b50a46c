ghost use Rattle.std.specs.Prelude.{◌≡◌};

use c6x_asm_lines::AsmRule;
use std::alloc::AllocError;
use thiserror::Error;

/// Why a text has no object.
#[derive(Debug, Drop, Error)]
pub enum AsmError {
    /// The first rule that the text breaks: `BadByte` before all others, then that of the lowest
    /// line, and of one line that with the lowest number. Lines are counted from 1.
    #[error("Rule")]
    Rule { rule: AsmRule, line: u32 },
    /// There was no memory.
    #[error("NoMemory")]
    NoMemory,
}

impl From<AllocError> for AsmError {
    ghost use Rattle.c6x_asm.specs.declared.asm_error.AsmError.TheVariants.{NoMemory as no_memory};

    ghost from_gives = { λ _ e. e ≡ no_memory };

    fn from(_: AllocError) -> AsmError {
        AsmError::NoMemory
    }
}
