/// Where a section lies in a linked file.
#[derive(Clone, Copy, Debug, PartialEq, Eq)]
pub struct Place {
    /// The number of its object.
    pub object: u32,
    /// The number of the section in its object.
    pub section: u32,
    pub address: u32,
    /// The length in bytes.
    pub len: u32,
}
