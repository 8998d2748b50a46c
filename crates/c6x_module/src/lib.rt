//! Modules of the DSBT model: executables and shared objects, as a loader needs them (SPRAB89, "Dynamic Linking").
//!
//! A [`Module`] has the segment that may run, the segment that may be written, its dynamic symbols, the fields that the
//! loader fills, and where its data segment base table stands. The rules that a file must keep to be one are here, with
//! the calls that look at dynamic entries, segments and fields; `c6x_modules` reads the tables that these name.
#![tactic(auto)]

mod addresses;
mod checks;
mod entries;
mod field;
mod fields;
mod lookups;
mod module;
mod module_error;
mod module_rule;
mod overlaps;
mod ranges;
mod shape;
mod symbol;

pub use addresses::find_addresses;
pub use checks::check;
pub use entries::{check_dsbt, find_entries, tag_or, tag_value};
pub use field::Field;
pub use fields::{check_entry, check_fields, check_kinds, make_fields};
pub use module::Module;
pub use module_error::ModuleError;
pub use module_rule::ModuleRule;
pub use ranges::{find_ranges, is_range, is_text};
pub use shape::check_shape;
pub use symbol::DynSymbol;
