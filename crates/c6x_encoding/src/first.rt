/// The first source operand: a register's number, or the five raw bits of a constant.
#[derive(Clone, Copy, Debug, PartialEq, Eq)]
pub enum First {
    Register(u8),
    Constant(u8),
}
