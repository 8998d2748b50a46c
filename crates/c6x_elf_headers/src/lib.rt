//! The headers of an ELF file of 32 bits and the rules that its file header must keep, the entries of its tables in
//! either byte order, and the parts of a written file at their places with zeros between them (System V gABI, chapters 4
//! and 5).
#![tactic(auto)]

pub mod abi;
mod checks;
mod dyn_entry;
mod elf_error;
mod elf_rule;
mod file_head;
mod head;
mod head_row;
mod header;
mod laws;
mod name;
mod name_hash;
mod name_table;
mod number;
mod number_row;
mod part;
mod reader;
mod rela_entry;
mod section_class;
mod section_head;
mod segment_head;
mod symbol_binding;
mod symbol_entry;
mod symbol_info;
mod visibility;
mod writer;

pub use checks::{check, need};
pub use dyn_entry::Dyn;
pub use elf_error::ElfError;
pub use elf_rule::ElfRule;
pub use file_head::FileHead;
pub use head::{put_file_head, put_section_head, put_segment_head};
pub use head_row::{read_section_heads, read_segment_heads};
pub use header::{is_big, read_header};
pub use laws::{
    dynamics_are_read_back, names_are_found, relas_are_read_back, symbols_are_read_back,
};
pub use name::name_at;
pub use name_hash::hash;
pub use name_table::NameTable;
pub use number::{read_half, read_word};
pub use number_row::put_words;
pub use part::{pad, put_part};
pub use reader::{
    dynamic, read_dynamic, read_rela, read_relas, read_symbol, read_symbols, rela, symbol,
};
pub use rela_entry::Rela;
pub use section_class::SectionClass;
pub use section_head::SectionHead;
pub use segment_head::SegmentHead;
pub use symbol_binding::SymbolBinding;
pub use symbol_entry::Symbol;
pub use symbol_info::info_of;
pub use visibility::Visibility;
pub use writer::{put_dynamic, put_rela, put_symbol};
