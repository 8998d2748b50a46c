//! The machine of one process as definitions, and the values that its contracts speak of.
//!
//! A process is a history of effects, to which each cycle adds. Nothing here is run: c6x_exec does the cycles.
#![tactic(auto)]

mod destination;
mod end;
mod fault_kind;
mod laws;
mod start;

pub use destination::Destination;
pub use end::End;
pub use fault_kind::FaultKind;
pub use laws::{
    cycles_count, ends_stay, packets_are_at_their_address, registers_are_last_writes,
    starts_have_no_first_part,
};
pub use start::Start;
