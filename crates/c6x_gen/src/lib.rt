//! Large valid input out of one number: the sources of an executable and of eleven libraries, the plans that link them,
//! and the plan of a run of eight processes.
//!
//! Line j of the executable calls library 1 + (number + 3 j) mod 11, and there are 1 + number mod 1000 such lines.
//! Library k adds its counter to what it is given; the counter is number times k mod 1000 at the start, and the sum
//! behind a call.
//!
//! Laws say for every number that each source is assembled, each object linked, each file read as a module, and each
//! process bound.
#![tactic(auto)]

mod assembled;
mod bound_laws;
mod generated;
mod linked;
mod links;
mod names;
mod planning;
mod plans;
mod read_back;
mod sources;

pub use assembled::sources_are_assembled;
pub use bound_laws::processes_are_bound;
pub use generated::Generated;
pub use linked::{objects_are_linked, objects_are_read, sources_are_linked};
pub use planning::plan_of;
pub use read_back::modules_are_read;
