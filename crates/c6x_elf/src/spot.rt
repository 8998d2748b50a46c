/// Where a segment's bytes stand in the file, and whether they are written there for it, or for an earlier
/// segment already.
#[derive(Clone, Copy, Debug)]
pub struct Spot {
    pub at: u32,
    pub fresh: bool,
}
