/// How a unit draws x and its opcode: the widths of x, of the code and of the fixed bits below it,
/// and those bits.
#[derive(Clone, Copy, Debug)]
pub struct Layout {
    pub cross: u32,
    pub code: u32,
    pub low: u32,
    pub fixed: u32,
}

/// The numbers of the fields of an operation on two operands, but for its opcode.
#[derive(Clone, Copy, Debug)]
pub struct Operands {
    pub condition: u32,
    pub dst: u32,
    pub second: u32,
    pub first: u32,
    pub cross: u32,
    pub side: u32,
    pub chained: u32,
}
