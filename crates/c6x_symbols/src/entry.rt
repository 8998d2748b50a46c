use crate::link_rule::LinkRule;
use crate::reference::Reference;

/// A relocation entry in its place.
#[derive(Clone, Copy, Debug)]
pub struct Entry {
    /// The object that has it.
    pub object: u32,
    /// The place of its section, from the first byte of its segment.
    pub at: u32,
    /// The number of the dynamic symbol by which the loader finds the definition: a segment's or an import's.
    pub symbol: u32,
    /// The address of that symbol in the file; 0 for an import.
    pub start: u32,
    pub reference: Reference,
}

/// The first broken rule of entries: the object that has the entry, and the entry's offset.
#[derive(Clone, Copy, Debug)]
pub struct EntryError {
    pub rule: LinkRule,
    pub object: u32,
    pub place: u32,
}
