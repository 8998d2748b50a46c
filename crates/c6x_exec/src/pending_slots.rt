/// Writes of registers that have not landed yet.
///
/// A write that is to land at cycle t on the register at place r stands in slot `t % 8 * 64 + r`, with t as its stamp.
/// Writes land within five cycles, so no two share a slot, and a stamp that has passed is never asked again.
#[derive(Drop)]
pub(crate) struct PendingWrites {
    pub(crate) stamps: [u32; 512],
    pub(crate) values: [u32; 512],
    /// The last landing cycle of a write that was noted in each of the eight parts of the slots.
    pub(crate) arrivals: [u32; 8],
    /// The same for each eight registers of each part.
    pub(crate) groups: [u32; 64],
}

/// Targets of branches that have not landed yet.
///
/// A target that is to land at cycle t stands in slot `t % 8`, with t as its stamp. Targets land within six cycles, so no
/// two share a slot.
#[derive(Drop)]
pub(crate) struct PendingTargets {
    pub(crate) stamps: [u32; 8],
    pub(crate) addresses: [u32; 8],
}
