use crate::operand::Operand;
use crate::statement_head::StatementHead;
use crate::word::Word;
use c6x_base::Row;

/// An instruction or a directive.
#[derive(Drop)]
pub struct Statement {
    pub head: StatementHead,
    pub operands: Row<Operand>,
}

/// A line: a label, then an instruction or a directive, each if there is one.
#[derive(Drop)]
pub struct Line {
    pub label: Option<Word>,
    pub statement: Option<Statement>,
}
