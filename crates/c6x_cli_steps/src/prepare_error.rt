use crate::cause::Cause;
use c6x_base::Name;
use std::alloc::AllocError;

/// Why a command ends before anything is written to the board, its output or the shelf.
#[derive(Debug, Drop)]
pub enum PrepareError {
    Because(Cause),
    /// The shelf could not read the file of this name.
    ReadFault(Name),
    Memory,
}

impl From<AllocError> for PrepareError {
    ghost use Rattle.std.specs.Prelude.{◌≡◌};
    ghost use Rattle.c6x_cli_steps.specs.declared.prepare_error.PrepareError.TheVariants.{Memory as memory};

    ghost from_gives = { λ _ e. e ≡ memory };

    fn from(_error: AllocError) -> PrepareError {
        PrepareError::Memory
    }
}
