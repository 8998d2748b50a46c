/// A word of the data range that the loader fills: a dynamic relocation entry (gABI chapter 4, "Relocation").
#[derive(Clone, Copy, Debug, PartialEq, Eq)]
pub struct Field {
    /// The address of the word, as in the file.
    pub place: u32,
    /// The entry is a JUMP_SLOT (SPRAB89, `R_C6000_JUMP_SLOT`), and else an ABS32.
    pub slot_kind: bool,
    /// The number of its symbol; 0 is no symbol.
    pub symbol: u32,
    /// What is added to the symbol's address.
    pub addend: i32,
}
