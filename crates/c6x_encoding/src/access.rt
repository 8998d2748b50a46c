/// A load or a store, in the order of the three opcode bits that name it (SPRU732, ".D Unit
/// Instructions and Opcode Maps").
#[derive(Clone, Copy, Debug, PartialEq, Eq)]
pub enum Access {
    Ldhu,
    Ldbu,
    Ldb,
    Stb,
    Ldh,
    Sth,
    Ldw,
    Stw,
}
