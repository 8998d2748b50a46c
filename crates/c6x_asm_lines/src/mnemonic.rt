use c6x_encoding::{Access, Arith, MoveKind};

/// The mnemonic of an instruction.
#[derive(Clone, Copy)]
pub enum Mnemonic {
    Two(Arith),
    Move(MoveKind),
    B,
    Bnop,
    Callp,
    AddKpc,
    Nop,
    Memory(Access),
}
