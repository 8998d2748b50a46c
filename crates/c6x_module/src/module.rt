use crate::field::Field;
use crate::symbol::DynSymbol;
use c6x_base::{Name, Row};
use c6x_elf::Segment;

/// An executable or a shared object, with what a loader needs of it (SPRAB89, "Dynamic Linking").
#[derive(Debug, Drop)]
pub struct Module {
    pub name: Name,
    /// The file's type: ET_EXEC or ET_DYN.
    pub kind: u16,
    /// The address of the first instruction, as in the file.
    pub entry: u32,
    /// The text: the load segment that may run.
    pub text: Segment,
    /// The data range: the load segment that may be written.
    pub memory: Segment,
    /// The dynamic symbols, the null symbol first.
    pub symbols: Row<DynSymbol>,
    /// The fields that the dynamic relocation entries name, in the order of the entries.
    pub fields: Row<Field>,
    /// The names of the modules that it needs.
    pub needed: Row<Name>,
    /// Its place in every data segment base table of its process. An executable has 0.
    pub index: u32,
    /// The number of words of its own table.
    pub slots: u32,
    /// The address of its own table, as in the file.
    pub table: u32,
}
