use crate::link_rule::LinkRule;
use c6x_base::Name;
use std::alloc::{AllocError, AllocFailed};
use thiserror::Error;

/// Why objects were not linked.
#[derive(Debug, Drop, Error)]
pub enum LinkError {
    /// This is the first broken rule. `name` is the name of which K1 and K2 speak, and is empty for every other rule;
    /// `object` is the number of K1's second definition or the object that another rule speaks of, else 0; `place` is
    /// the number that the rule tells, and 0 for K1 and K2.
    #[error("Rule")]
    Rule {
        rule: LinkRule,
        object: u32,
        place: u32,
        name: Name,
    },
    #[error("NoMemory")]
    NoMemory,
}

impl From<AllocError> for LinkError {
    ghost use Rattle.std.specs.Prelude.{◌≡◌};
    ghost use Rattle.c6x_symbols.specs.declared.link_error.LinkError.TheVariants.{NoMemory as no_memory};

    ghost from_gives = { λ _ e. e ≡ no_memory };

    fn from(_error: AllocError) -> LinkError {
        LinkError::NoMemory
    }
}

impl<T: Drop> From<AllocFailed<T>> for LinkError {
    ghost use Rattle.std.specs.Prelude.{◌≡◌};
    ghost use Rattle.c6x_symbols.specs.declared.link_error.LinkError.TheVariants.{NoMemory as no_memory};

    ghost from_gives = { λ _ e. e ≡ no_memory };

    fn from(_error: AllocFailed<T>) -> LinkError {
        LinkError::NoMemory
    }
}
