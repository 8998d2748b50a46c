use crate::shared::Shared;
use c6x_base::{Bytes, Name, Row};
use c6x_elf::Rela;

/// All that a linker worked out of a module.
#[derive(Debug, Drop)]
pub struct Parts {
    /// The module is a shared object, and not an executable.
    pub library: bool,
    /// The address where a process begins.
    pub entry: u32,
    /// The text's sections and stubs, with their fields set.
    pub code: Bytes,
    /// The data's bytes in the file, with their fields set.
    pub content: Bytes,
    /// The data's bytes in memory.
    pub memory: u32,
    /// The alignment of the text.
    pub align: u32,
    /// The alignment of the data.
    pub data_align: u32,
    /// The address of the table, with which the data begins.
    pub table: u32,
    /// The slots of the table.
    pub slots: u32,
    /// The module's own slot.
    pub index: u32,
    /// The exports, and then the imports.
    pub shared: Row<Shared>,
    /// The module's name for others.
    pub soname: Option<Name>,
    /// The names of the modules that it needs.
    pub needed: Row<Name>,
    /// The fields that a loader fills, value words first.
    pub relas: Row<Rela>,
    /// The words of the stubs.
    pub jumps: Row<Rela>,
}
