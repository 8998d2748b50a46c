use crate::cond_reg::CondReg;

/// When an instruction takes effect (SPRU732, "Conditional Operations").
#[derive(Clone, Copy, Debug, PartialEq, Eq)]
pub enum Cond {
    Always,
    /// Where the register is zero, or, if `zero` is false, where it is not.
    If { register: CondReg, zero: bool },
}
