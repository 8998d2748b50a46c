/// A register that a condition may test, in the order of the creg field.
#[derive(Clone, Copy, Debug, PartialEq, Eq)]
pub enum CondReg {
    B0,
    B1,
    B2,
    A1,
    A2,
    A0,
}
