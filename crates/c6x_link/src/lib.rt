//! The linker: objects and a link plan to a module (SPRAB89, "Dynamic Linking").
//!
//! What a link makes is said whole in `specs/Linked.antt`: the first broken rule, or the file of its parts: the symbols
//! and relocation entries at link addresses, and the bytes before and behind their fields. [`link`] gives it. That every
//! relocated field of the objects holds its value at the link addresses, unless a later entry names its bits or the
//! loader fills it, is [`linked_fields_hold_their_values`].
#![tactic(auto)]

mod address;
mod addresses;
mod bound_names;
mod entering;
mod images;
mod import_symbols;
mod laws;
mod link_value;
mod linking;
mod loader_words;
mod parting;
mod section_key;
mod sections;
mod setting;
mod sharing;
mod starting;
mod stubs;
mod symbol_rows;
mod target;
mod targets;
mod values;

pub use laws::{linked_fields_hold_their_values, links_are_files_or_rules};
pub use linking::link;
pub use target::Target;
