/// A rule of an assembly text, numbered A1 to A9 in this order. The rules are this project's own.
#[derive(Debug, Clone, Copy, PartialEq, Eq)]
pub enum AsmRule {
    /// A byte starts no token.
    BadByte,
    /// A line has not the form of one.
    Syntax,
    /// A mnemonic, directive, unit or relocation kind is not known.
    UnknownWord,
    /// An operand has the wrong form or is on the wrong side.
    Operand,
    /// A number is out of its range, or no multiple or power of two as is asked.
    Range,
    /// An execute packet is none.
    Packet,
    /// A name is given a second place.
    DuplicateLabel,
    /// Something stands before any section.
    NoSection,
    /// A line or a section is too much.
    Large,
}
