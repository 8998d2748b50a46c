use crate::pending_slots::{PendingTargets, PendingWrites};
use c6x_isa::Regs;
use c6x_machine::End;

/// All that a process keeps beside its areas.
#[derive(Drop)]
pub(crate) struct Context {
    pub(crate) registers: Regs,
    pub(crate) writes: PendingWrites,
    pub(crate) targets: PendingTargets,
    pub(crate) cycles: u32,
    pub(crate) limit: u32,
    /// The first cycle at which the address behind the last packet may issue.
    pub(crate) ready: u32,
    /// The address behind the last packet; before the first one, the entry.
    pub(crate) next: u32,
    pub(crate) output: Vec<u8>,
    pub(crate) ended: Option<End>,
}
