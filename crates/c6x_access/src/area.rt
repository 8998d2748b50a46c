/// `len` bytes from the address `lo` on, and what a process may do with each of them.
#[derive(Clone, Copy, Debug, PartialEq, Eq)]
pub struct Area {
    pub lo: u32,
    pub len: u32,
    pub read: bool,
    pub write: bool,
    pub run: bool,
}
