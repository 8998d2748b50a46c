/// Where a piece starts: its offset, its line, and the offset of the first byte of that line.
#[derive(Debug, Clone, Copy)]
pub struct Place {
    pub at: usize,
    pub line: usize,
    pub start: usize,
}
