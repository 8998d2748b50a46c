use c6x_base::Side;

/// What follows the side in the word of a unit.
#[derive(Clone, Copy)]
pub enum DataPath {
    Own,
    /// `X`: the second operand is on the other side.
    Cross,
    /// `T1` or `T2`: the side of the register that is loaded or stored.
    Value(Side),
}
