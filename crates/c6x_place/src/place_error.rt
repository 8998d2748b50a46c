use std::alloc::{AllocError, AllocFailed};
use thiserror::Error;

/// Why there is no placement of the processes of a plan.
#[derive(Debug, Drop, Error)]
pub enum PlaceError {
    /// L18: a range would end past the memory.
    #[error("NoRoom")]
    NoRoom,
    /// There is no memory for the placement.
    #[error("NoMemory")]
    NoMemory,
}

impl From<AllocError> for PlaceError {
    ghost use Rattle.std.specs.Prelude.{◌≡◌};
    ghost use Rattle.c6x_place.specs.declared.place_error.PlaceError.TheVariants.{NoMemory as no_memory};

    ghost from_gives = { λ _ e. e ≡ no_memory };

    fn from(_error: AllocError) -> PlaceError {
        PlaceError::NoMemory
    }
}

impl<T: Drop> From<AllocFailed<T>> for PlaceError {
    ghost use Rattle.std.specs.Prelude.{◌≡◌};
    ghost use Rattle.c6x_place.specs.declared.place_error.PlaceError.TheVariants.{NoMemory as no_memory};

    ghost from_gives = { λ _ e. e ≡ no_memory };

    fn from(_error: AllocFailed<T>) -> PlaceError {
        PlaceError::NoMemory
    }
}
