use crate::word::Word;
use c6x_reloc::RelocKind;

/// A relocation that an expression makes.
#[derive(Clone, Copy)]
pub struct Relocation {
    pub kind: RelocKind,
    /// None for the null symbol.
    pub symbol: Option<Word>,
    /// The addend modulo 2^32.
    pub addend: u32,
}
