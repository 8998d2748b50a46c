//! The words of a linked module's table: its slots, the value words of symbols that are reached through the table, and
//! the stubs of imports (SPRAB89, "Dynamic Linking").
//!
//! [`plan_tables`] checks the index and the table's size of a link plan, and lists words and stubs in order of first need
//! (`specs/Needs.antt`). [`wanted`] tells what each symbol of an object stands for.
#![tactic(auto)]

mod needing;
mod origins;
mod planning;
mod stubs;
mod tables;
mod wanted;
mod wanting;
mod words;

pub use origins::origin_in;
pub use planning::plan_tables;
pub use stubs::Stubs;
pub use tables::Tables;
pub use wanted::Wanted;
pub use wanting::{wanted_at, wanted_symbols};
pub use words::Words;
