use crate::word::Word;
use c6x_encoding::Cond;

/// What stands before the operands of an instruction or a directive.
#[derive(Clone, Copy)]
pub struct StatementHead {
    /// `||` stands before it.
    pub chained: bool,
    pub condition: Cond,
    /// The mnemonic or the directive.
    pub word: Word,
    /// None for a directive and for NOP.
    pub unit: Option<Word>,
}
