use c6x_symbols::Region;

/// What the symbol of a relocation entry is at link addresses.
#[derive(Clone, Copy, Debug)]
pub struct Target {
    /// Where its definition lies.
    pub region: Region,
    /// The address of its definition; 0 for an import.
    pub address: u32,
    /// Where a branch to it goes: an import's stub, else its address.
    pub reach: u32,
    /// The address of its value word; 0 where it has none.
    pub word: u32,
    /// The number of the dynamic symbol by which the loader finds it; 0 for an absolute one.
    pub symbol: u32,
    /// The address of that symbol in the file.
    pub start: u32,
}
