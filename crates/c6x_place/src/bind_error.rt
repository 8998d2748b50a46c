use crate::bind_rule::BindRule;
use c6x_base::Name;
use std::alloc::{AllocError, AllocFailed};
use thiserror::Error;

/// Why the processes of a plan are not bound.
#[derive(Debug, Drop, Error)]
pub enum BindError {
    /// This is the first broken rule, by process. The number and the name are those of the rule: a module's and
    /// a symbol's or a missing module's, or an index and the process's.
    #[error("Rule")]
    Rule {
        rule: BindRule,
        process: u32,
        number: u32,
        name: Name,
    },
    /// There is no memory for what is bound.
    #[error("NoMemory")]
    NoMemory,
}

impl From<AllocError> for BindError {
    ghost use Rattle.std.specs.Prelude.{◌≡◌};
    ghost use Rattle.c6x_place.specs.declared.bind_error.BindError.TheVariants.{NoMemory as no_memory};

    ghost from_gives = { λ _ e. e ≡ no_memory };

    fn from(_error: AllocError) -> BindError {
        BindError::NoMemory
    }
}

impl<T: Drop> From<AllocFailed<T>> for BindError {
    ghost use Rattle.std.specs.Prelude.{◌≡◌};
    ghost use Rattle.c6x_place.specs.declared.bind_error.BindError.TheVariants.{NoMemory as no_memory};

    ghost from_gives = { λ _ e. e ≡ no_memory };

    fn from(_error: AllocFailed<T>) -> BindError {
        BindError::NoMemory
    }
}
