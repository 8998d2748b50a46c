use crate::register::Register;

/// What the grammar asks of a word.
#[derive(Clone, Copy)]
pub enum WordClass {
    Register(Register),
    /// It begins with a dot.
    Dotted,
    /// `NOP` in either case.
    Nop,
    Other,
}

/// A word of the text.
#[derive(Clone, Copy)]
pub struct Word {
    /// The offset of its first byte.
    pub at: u32,
    /// The number of its bytes.
    pub len: u32,
    pub class: WordClass,
}
