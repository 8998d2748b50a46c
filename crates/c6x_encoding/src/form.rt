use crate::arith::Arith;
use crate::move_kind::MoveKind;
use crate::unit_kind::UnitKind;

/// What an instruction is apart from the fields of its word: the name of a row of the table.
#[derive(Clone, Copy, Debug, PartialEq, Eq)]
pub enum Form {
    /// Two operands, of which the first may be a constant.
    Two {
        unit: UnitKind,
        arith: Arith,
        constant: bool,
    },
    Move(MoveKind),
    Branch,
    Callp,
    BranchNop,
    BranchReg,
    BranchRegNop,
    AddKpc,
    Nop,
    Short,
    Long,
}
