use c6x_base::Bytes;

/// The bytes of the tables of a text.
#[derive(Debug, Drop)]
pub struct Tables {
    pub hash: Bytes,
    pub symbols: Bytes,
    pub strings: Bytes,
    pub relas: Bytes,
    pub jumps: Bytes,
    pub dynamic: Bytes,
}
