/// An operation on two operands.
#[derive(Clone, Copy, Debug, PartialEq, Eq)]
pub enum Arith {
    Add,
    Sub,
    And,
    Or,
    Xor,
    CmpEq,
    CmpGt,
    CmpLt,
    CmpGtu,
    CmpLtu,
    Shl,
    Shr,
    Shru,
    Mpy,
    Mpyu,
}
