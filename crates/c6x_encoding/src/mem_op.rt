use crate::job::Job;

/// A memory access of 1, 2 or 4 bytes.
#[derive(Clone, Copy, Debug, PartialEq, Eq)]
pub struct MemOp {
    pub address: u32,
    pub size: u8,
    pub job: Job,
}
