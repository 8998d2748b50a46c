use crate::punctuator::Punctuator;
use crate::word::Word;

/// A token of one line with what it stands for.
#[derive(Clone, Copy)]
pub enum Lexeme {
    Word(Word),
    /// None where it is above 4,294,967,295.
    Number(Option<u32>),
    /// The offset of the first byte between the quotes, and the number of bytes there.
    Text { at: u32, len: u32 },
    Punctuator(Punctuator),
}
