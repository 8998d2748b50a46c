/// `len` addresses from `lo` on.
#[derive(Clone, Copy, Debug, PartialEq, Eq)]
pub struct Range {
    pub lo: u32,
    pub len: u32,
}
