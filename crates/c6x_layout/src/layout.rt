use crate::place::Place;
use c6x_base::Row;

/// The addresses of a linked file.
#[derive(Debug, Drop)]
pub struct Layout {
    /// The sections with memory: those of the text, the near ones with bytes, the near ones of zeros, the far ones with
    /// bytes and the far ones of zeros, each in object and section order.
    pub places: Row<Place>,
    /// For each name of the bindings the address of its common; 0 where it is bound to no common.
    pub commons: Row<u32>,
    /// The address of the first stub; 0 where there is none.
    pub stubs: u32,
    /// The address of the dynamic entries.
    pub dynamic: u32,
    /// The address behind the text.
    pub text_end: u32,
    /// The alignment of the text.
    pub text_align: u32,
    /// The address of the table, which is where the data begins.
    pub table: u32,
    /// The address of the first value word; the words of the stubs follow the value words.
    pub words: u32,
    /// The address behind the data's bytes in the file.
    pub file_end: u32,
    /// The address behind the data.
    pub end: u32,
    /// The alignment of the data.
    pub data_align: u32,
}
