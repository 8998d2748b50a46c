use crate::number::Number;
use crate::register::Register;
use crate::word::Word;

/// An operand without a named kind.
#[derive(Clone, Copy)]
pub enum Primary {
    Register(Register),
    Number(Number),
    /// A symbol; the addend is None where no sign follows it.
    Symbol { name: Word, addend: Option<Number> },
}
