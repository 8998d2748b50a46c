use crate::cond::Cond;
use crate::op::Op;

/// One instruction.
#[derive(Clone, Copy, Debug, PartialEq, Eq)]
pub struct Instr {
    pub condition: Cond,
    pub op: Op,
    /// The p bit: the next instruction executes in parallel with this one.
    pub chained: bool,
}
