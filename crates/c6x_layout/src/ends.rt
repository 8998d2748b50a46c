/// The ends of the groups of a linked file's data, each behind the one before.
#[derive(Clone, Copy, Debug)]
pub struct Ends {
    pub near_bytes: u64,
    pub near_zeros: u64,
    /// Behind the near commons.
    pub near: u64,
    /// Where the file's bytes end.
    pub far_bytes: u64,
    pub far_zeros: u64,
    /// Behind the far commons.
    pub far: u64,
}
