//! Objects as a linker reads them, and the binding of names over them: which definition each name has (System V gABI,
//! chapter 4 and "Symbol Table"; SPRAB89).
//!
//! [`zone_of`] tells in which part of a linked file a section lies, [`parts`] lists the sections with memory and
//! [`entries`] the relocation entries that change them, both in object and section order. An object's symbols are those
//! of its first symbol table (`c6x_elf::symbols`). [`resolve`] gives the [`Bindings`]: each name that a GLOBAL or WEAK
//! symbol has, in order of first appearance, with the [`Binding`] that is picked from all of its mentions, or the first
//! broken rule of the names.
//!
//! An [`Entry`] has all that its rules ask for, at link addresses. [`set_entries`] tells the first rule that one of a
//! list breaks, or sets their fields in the bytes of text and of data; [`dynamic_relas`] gives the entries that are left
//! to the loader.
#![tactic(auto)]

mod binding;
mod bindings;
mod checking;
mod choosing;
mod classes;
mod common;
mod entry;
mod entry_list;
mod group;
mod groups;
mod growing;
mod link_error;
mod link_rule;
mod mention;
mod mentions;
mod names;
mod object_entry;
mod part;
mod part_list;
mod passing;
mod reference;
mod region;
mod relas;
mod resolving;
mod rules;
mod sections;
mod source;
mod zone;

pub use binding::Binding;
pub use bindings::Bindings;
pub use common::Common;
pub use entry::{Entry, EntryError};
pub use entry_list::file_entries;
pub use group::Group;
pub use link_error::LinkError;
pub use link_rule::LinkRule;
pub use mention::Mention;
pub use mentions::strings_of;
pub use object_entry::ObjectEntry;
pub use part::Part;
pub use part_list::parts;
pub use passing::set_entries;
pub use reference::Reference;
pub use region::Region;
pub use relas::dynamic_relas;
pub use resolving::resolve;
pub use rules::check;
pub use sections::{is_allocated, zone_of};
pub use source::Source;
pub use zone::Zone;
