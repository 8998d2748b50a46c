/// A relocation entry of an object, which changes a section with memory.
#[derive(Clone, Copy, Debug, PartialEq, Eq)]
pub struct ObjectEntry {
    /// The number of its object.
    pub object: u32,
    /// The number of the section that it changes.
    pub section: u32,
    /// The kind's number. None where the entry stands for a whole table that cannot be read: one without
    /// addends, or one linked to another symbol table than the object's.
    pub kind: Option<u8>,
    /// The field's place in the section; 0 for an entry without a kind.
    pub offset: u32,
    /// The symbol's number; 0 for an entry without a kind.
    pub symbol: u32,
    /// What is added to the symbol's address; 0 for an entry without a kind.
    pub addend: i32,
}
