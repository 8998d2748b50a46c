use crate::relocation::Relocation;
use c6x_encoding::Op;

/// The bits of a field and the relocation that is to fill them in.
#[derive(Clone, Copy)]
pub struct Field {
    pub bits: u32,
    pub relocation: Option<Relocation>,
}

/// What an instruction does, and the relocation of its field.
#[derive(Clone, Copy)]
pub struct RelocatableOp {
    pub op: Op,
    pub relocation: Option<Relocation>,
}
