use crate::stretch::Stretch;

/// What the limits ask of consecutive sections of a text.
#[derive(Clone, Copy)]
pub struct Summary {
    /// Where they end; unknown where their alignments do not divide one another, or where the numbers are large.
    pub stretch: Option<Stretch>,
    /// Whether one of them, or its relocation table, is too long.
    pub heavy: bool,
    /// The number of their relocation tables.
    pub tables: u64,
    /// The bytes of these.
    pub rows: u64,
    /// The bytes of the names of the sections and of their relocation tables, each with a zero byte.
    pub names: u64,
}
