/// Which numbers an operand may be.
#[derive(Clone, Copy)]
pub struct Range {
    /// How far below zero it may be.
    pub below: u32,
    /// The least number that is not below zero.
    pub least: u32,
    pub most: u32,
    /// It is a multiple of this.
    pub step: u32,
    /// Two to the number of bits that it is put in.
    pub modulus: u64,
}
