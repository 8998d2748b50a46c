/// An operation of .S on a register and a constant of 16 bits.
#[derive(Clone, Copy, Debug, PartialEq, Eq)]
pub enum MoveKind {
    Mvk,
    Mvkh,
    Addk,
}
