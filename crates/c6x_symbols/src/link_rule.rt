/// A rule that objects and a link plan must keep, numbered K1 to K14 in this order.
#[derive(Clone, Copy, Debug, PartialEq, Eq)]
pub enum LinkRule {
    /// A name has two strong definitions.
    DuplicateStrong,
    /// A name that no other module may see is defined nowhere.
    HiddenUndefined,
    /// An alignment is no power of two, or greater than the greatest.
    Alignment,
    /// Text, data or the number of a stub's word is too great.
    Large,
    /// The module's index is not one that it may have.
    BadIndex,
    /// The table's size is not one that it may have.
    BadSize,
    /// A relocation entry has no kind that may be linked.
    RelocKind,
    /// A value does not fit into its field.
    RelocRange,
    /// A value is no multiple of what its field counts.
    RelocAlign,
    /// An addend stands where there may be none.
    GotAddend,
    /// An address is wanted where none can be filled in at load.
    TextAbsolute,
    /// A definition lies in another segment than its entry asks for.
    CrossSegment,
    /// A field is not wholly in its section, or an instruction's is not at a word.
    PlaceOutside,
    /// An executable has no entry in text.
    NoEntry,
}
