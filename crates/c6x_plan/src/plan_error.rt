use std::alloc::{AllocError, AllocFailed};
use thiserror::Error;

/// Why a text gives no plan: its first broken rule, by line and then in this order, with the number of the line.
///
/// Lines count from 1. Line 0 stands for the whole text, and comes after all lines.
#[derive(Debug, Drop, Error)]
pub enum PlanError {
    /// N1: the line has no form of a plan's lines, or a number out of its limits, or says a second time what is said
    /// once; or there is no first line.
    #[error("Syntax")]
    Syntax { line: u32 },
    /// N2: the line gives a name a second time, or names a module that no earlier line names.
    #[error("Name")]
    Name { line: u32 },
    /// N3: the line passes a count; or a plan lacks a process, or a link plan an object.
    #[error("Count")]
    Count { line: u32 },
    /// There is no memory for the plan.
    #[error("NoMemory")]
    NoMemory,
}

impl From<AllocError> for PlanError {
    ghost use Rattle.std.specs.Prelude.{◌≡◌};
    ghost use Rattle.c6x_plan.specs.declared.plan_error.PlanError.TheVariants.{NoMemory as no_memory};

    ghost from_gives = { λ _ e. e ≡ no_memory };

    fn from(_error: AllocError) -> PlanError {
        PlanError::NoMemory
    }
}

impl<T: Drop> From<AllocFailed<T>> for PlanError {
    ghost use Rattle.std.specs.Prelude.{◌≡◌};
    ghost use Rattle.c6x_plan.specs.declared.plan_error.PlanError.TheVariants.{NoMemory as no_memory};

    ghost from_gives = { λ _ e. e ≡ no_memory };

    fn from(_error: AllocFailed<T>) -> PlanError {
        PlanError::NoMemory
    }
}
