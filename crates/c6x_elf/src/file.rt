use crate::section::Section;
use crate::segment::Segment;
use c6x_base::Row;

/// What the bytes of a file stand for: the values of its headers, its segments and its sections (gABI
/// chapters 4 and 5). Offsets in the file, physical addresses and the identification's padding are not
/// kept.
#[derive(Debug, Drop)]
pub struct File {
    /// `e_type`: 1 is a relocatable file, 2 an executable, 3 a shared object.
    pub kind: u16,
    /// `e_entry`: the address where a process begins.
    pub entry: u32,
    /// `e_flags`.
    pub flags: u32,
    /// `e_shstrndx`: the number of the section with the sections' names, or 0.
    pub names: u16,
    pub segments: Row<Segment>,
    pub sections: Row<Section>,
}
