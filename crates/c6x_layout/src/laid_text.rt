use c6x_base::Bytes;

/// The bytes of a text, those of its dynamic entries, and the address of these.
#[derive(Debug, Drop)]
pub struct LaidText {
    pub bytes: Bytes,
    pub dynamic: Bytes,
    pub dynamic_at: u32,
}
