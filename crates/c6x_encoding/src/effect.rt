use crate::mem_op::MemOp;
use crate::write::Write;

/// What one instruction does.
#[derive(Clone, Copy, Debug, PartialEq, Eq)]
pub struct Effects {
    /// The value that the instruction computes.
    pub result: Option<Write>,
    /// The changed base register of a load or a store.
    pub update: Option<Write>,
    pub access: Option<MemOp>,
    /// The address that a branch goes to.
    pub target: Option<u32>,
    /// The cycles that pass after this one before the next packet issues.
    pub wait: u8,
}
