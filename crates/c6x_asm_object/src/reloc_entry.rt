use c6x_reloc::RelocKind;

/// A relocation of a section.
#[derive(Clone, Copy)]
pub struct RelocEntry {
    pub offset: u32,
    pub kind: RelocKind,
    /// The symbol's place among the names of the text; None for the null symbol.
    pub symbol: Option<usize>,
    /// The addend modulo 2^32.
    pub addend: u32,
}
