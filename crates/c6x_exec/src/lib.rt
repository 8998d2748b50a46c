//! The machine of one process: its packets, delayed effects, waits and faults, cycle by cycle.
#![tactic(auto)]

mod address;
mod chain;
mod context;
mod cycle_end;
mod destinations;
mod execute;
mod faults;
mod fetch;
mod gate;
mod initial;
mod known;
mod limits;
mod memory;
mod note;
mod pending;
mod pending_slots;
mod process;
mod put;
mod register_file;
mod rows;
mod run;
mod step;

pub use c6x_machine::{End, FaultKind, Start};
pub use process::Process;
pub use run::{Ran, cycle, run_cycles, run_to_end};
