use crate::zone::Zone;

/// A section with memory, as a part of a linked file.
#[derive(Clone, Copy, Debug, PartialEq, Eq)]
pub struct Part {
    /// The number of its object.
    pub object: u32,
    /// The number of the section in its object.
    pub section: u32,
    pub zone: Zone,
    /// It has bytes in the file; else it is zeros.
    pub filled: bool,
    /// `sh_size`: the length in bytes.
    pub size: u32,
    /// `sh_addralign`: 0 and 1 ask for no alignment.
    pub align: u32,
}
