use c6x_elf::Symbol;

/// A GLOBAL or WEAK symbol of an object.
#[derive(Clone, Copy, Debug)]
pub struct Mention {
    /// The number of the object.
    pub object: u32,
    /// The number of the symbol.
    pub number: u32,
    pub symbol: Symbol,
}
