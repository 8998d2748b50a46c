use crate::region::Region;
use c6x_reloc::{Inputs, RelocKind};

/// What the rules on a relocation entry ask for.
#[derive(Clone, Copy, Debug)]
pub struct Reference {
    /// None for a number without a value, and for an entry that stands for a whole section.
    pub kind: Option<RelocKind>,
    /// Its place, from the first byte of its section.
    pub offset: u32,
    /// The bytes of its section; a section of zeros has none.
    pub room: u32,
    /// Its section is text, else data.
    pub in_text: bool,
    /// Where the symbol's definition lies.
    pub target: Region,
    pub inputs: Inputs,
}
