//! The sections, symbols and relocations that the lines of an assembly text make, the limits that they pass or keep, and
//! the object file that they stand for.
#![tactic(auto)]

mod adding;
mod asm_section;
mod binding;
mod definition;
mod entries;
mod filing;
mod growing;
mod headers;
mod instr_word;
mod interning;
mod large;
mod names;
mod naming;
mod numbering;
mod object;
mod outline;
mod placing;
mod reloc_entry;
mod relocating;
mod section_kind;
mod section_table;
mod sections;
mod stretch;
mod strings;
mod summary;
mod summing;
mod symbol;
mod symbols;

pub use asm_section::AsmSection;
pub use definition::Definition;
pub use filing::file_of;
pub use growing::{empty_section, is_zero, padding};
pub use instr_word::InstrWord;
pub use interning::{intern, symbol_at};
pub use large::is_large;
pub use names::Names;
pub use naming::kind_named;
pub use object::Object;
pub use outline::Outline;
pub use reloc_entry::RelocEntry;
pub use section_kind::SectionKind;
pub use sections::{add_align, add_instruction, add_number, add_zeros};
pub use symbol::Symbol;
pub use symbols::Symbols;
