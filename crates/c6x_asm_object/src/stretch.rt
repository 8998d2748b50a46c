/// What consecutive sections do to a place in the file: `ahead` bytes, then up to a multiple of `align`, then `behind` bytes.
#[derive(Clone, Copy)]
pub struct Stretch {
    pub ahead: u32,
    pub align: u32,
    pub behind: u32,
}
