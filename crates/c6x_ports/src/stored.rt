use c6x_base::{Bytes, Name};

/// A file of a shelf in memory.
#[derive(Debug, Drop)]
pub struct Stored {
    pub name: Name,
    pub bytes: Bytes,
}
