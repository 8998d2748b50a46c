use crate::elf_rule::ElfRule;
use std::alloc::{AllocError, AllocFailed};
use thiserror::Error;

/// Why bytes were not read as a file.
#[derive(Debug, Drop, Error)]
pub enum ElfError {
    /// This is the first broken rule in reading order, and the place in the file where it stands.
    #[error("Rule")]
    Rule { rule: ElfRule, place: u32 },
    #[error("NoMemory")]
    NoMemory,
}

impl From<AllocError> for ElfError {
    ghost use Rattle.std.specs.Prelude.{◌≡◌};
    ghost use Rattle.c6x_elf_headers.specs.declared.elf_error.ElfError.TheVariants.{NoMemory as no_memory};

    ghost from_gives = { λ _ e. e ≡ no_memory };

    fn from(_error: AllocError) -> ElfError {
        ElfError::NoMemory
    }
}

impl<T: Drop> From<AllocFailed<T>> for ElfError {
    ghost use Rattle.std.specs.Prelude.{◌≡◌};
    ghost use Rattle.c6x_elf_headers.specs.declared.elf_error.ElfError.TheVariants.{NoMemory as no_memory};

    ghost from_gives = { λ _ e. e ≡ no_memory };

    fn from(_error: AllocFailed<T>) -> ElfError {
        ElfError::NoMemory
    }
}
