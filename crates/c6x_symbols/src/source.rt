/// Where a symbol stands: the number of its object, and its number in the table there.
#[derive(Clone, Copy, Debug, PartialEq, Eq)]
pub struct Source {
    pub object: u32,
    pub symbol: u32,
}
