//! What all commands of `c6x` are made of: steps over a shelf of files, the errors that stop them, the line and the
//! status of each, stages that are put on an output, and the plans and ELF files that are fetched and read.
//!
//! Nothing here knows what a command makes. A crate of commands says in its own definitions what its steps come to
//! (`Steps`), and proves its calls against the words of this crate.
#![tactic(auto)]

mod cause;
mod commit_error;
mod diagnostics;
mod elf;
mod files;
mod plans;
mod prepare_error;
mod refusals;

pub use cause::{Cause, Refusal};
pub use commit_error::CommitError;
pub use diagnostics::{report_error, report_write_fault};
pub use elf::fetch_elf;
pub use files::{fetch_file, fetch_whole};
pub use plans::{fetch_link_plan, fetch_plan};
pub use prepare_error::PrepareError;
pub use refusals::{elf_label, label, refuse};
