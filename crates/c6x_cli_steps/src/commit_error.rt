use c6x_ports::SinkError;
use std::alloc::AllocError;

/// Why a command that nothing stopped before its first write was not carried out to its end.
#[derive(Debug, Drop)]
pub enum CommitError {
    /// The output, or the shelf that was stored to, could not write.
    WriteFault,
    /// Memory ran out, with nothing written.
    Memory,
}

impl From<SinkError> for CommitError {
    ghost use Rattle.std.specs.Prelude.{◌≡◌};
    ghost use Rattle.c6x_cli_steps.specs.declared.commit_error.CommitError.TheVariants.{WriteFault as write_fault};

    ghost from_gives = { λ _ e. e ≡ write_fault };

    fn from(_error: SinkError) -> CommitError {
        CommitError::WriteFault
    }
}

impl From<AllocError> for CommitError {
    ghost use Rattle.std.specs.Prelude.{◌≡◌};
    ghost use Rattle.c6x_cli_steps.specs.declared.commit_error.CommitError.TheVariants.{Memory as memory};

    ghost from_gives = { λ _ e. e ≡ memory };

    fn from(_error: AllocError) -> CommitError {
        CommitError::Memory
    }
}
