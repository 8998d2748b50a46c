use crate::module_rule::ModuleRule;
use std::alloc::{AllocError, AllocFailed};
use thiserror::Error;

/// Why a file gives no module.
#[derive(Debug, Drop, Error)]
pub enum ModuleError {
    /// This is the first broken rule, with its number: a tag, an address, a count or an alignment, as the rule says.
    #[error("Rule")]
    Rule { rule: ModuleRule, number: u32 },
    /// There is no memory for the module.
    #[error("NoMemory")]
    NoMemory,
}

impl From<AllocError> for ModuleError {
    ghost use Rattle.std.specs.Prelude.{◌≡◌};
    ghost use Rattle.c6x_module.specs.declared.module_error.ModuleError.TheVariants.{NoMemory as no_memory};

    ghost from_gives = { λ _ e. e ≡ no_memory };

    fn from(_error: AllocError) -> ModuleError {
        ModuleError::NoMemory
    }
}

impl<T: Drop> From<AllocFailed<T>> for ModuleError {
    ghost use Rattle.std.specs.Prelude.{◌≡◌};
    ghost use Rattle.c6x_module.specs.declared.module_error.ModuleError.TheVariants.{NoMemory as no_memory};

    ghost from_gives = { λ _ e. e ≡ no_memory };

    fn from(_error: AllocFailed<T>) -> ModuleError {
        ModuleError::NoMemory
    }
}
