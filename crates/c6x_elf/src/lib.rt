//! ELF files of 32 bits, read and written exactly (System V gABI, chapters 4 and 5).
//!
//! [`read_file`] gives the one [`File`] that bytes stand for (`specs/Reading.antt`), or the first broken rule
//! in reading order with its place. [`write_file`] lays a tidy file out (`specs/Writing.antt`), and reading
//! what it wrote gives the file again; [`is_tidy`] is the test of its condition (`specs/Form.antt`). What
//! read form says of each section, symbol and relocation is `specs/Tables.antt`. The numbers of the gABI
//! under their names ([`abi`]), the entries of tables, string tables and the hash of a name are those of
//! `c6x_elf_entries`. Definitions of crates above find all of these below `c6x_elf.specs`: numbers in `Abi`,
//! types in `Types`.
#![tactic(auto)]

mod file;
mod laws;
mod lists;
mod names;
mod parts;
mod placing;
mod reading;
mod section;
mod segment;
mod spot;
mod writing;

pub use c6x_elf_headers::{
    Dyn, ElfError, ElfRule, NameTable, Rela, SectionClass, Symbol, SymbolBinding, Visibility, abi,
    dynamic, hash, info_of, name_at, pad, put_dynamic, put_part, put_rela, put_symbol, put_words,
    read_dynamic, read_rela, read_relas, read_symbol, read_symbols, rela, symbol,
};
pub use file::File;
pub use laws::{names_are_under_their_front, read_form_is_well_formed, segments_alone_are_tidy};
pub use lists::{is_under, section_bytes, section_name, symbol_table, symbols};
pub use reading::read_file;
pub use section::Section;
pub use segment::Segment;
pub use writing::{is_tidy, write_file};
