//! The modules of a plan in one owner, each taken in from its file, and found by name (SPRAB89, "Dynamic Linking").
//!
//! The tables that a module's dynamic entries name are read once, with the rule L11 on them; symbols and needed names
//! have their names in place of offsets (gABI chapter 5, "Dynamic Section").
#![tactic(auto)]

mod checks;
mod copies;
mod entry_rows;
mod modules;
mod name_index;
mod names;
mod ranges;
mod reading;
mod slices;
mod sums;
mod survey;
mod table_reading;

pub use modules::{MOST_OWNED_MODULES, Modules};
pub use reading::read_module;
