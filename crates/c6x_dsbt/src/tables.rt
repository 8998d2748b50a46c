use crate::stubs::Stubs;
use crate::words::Words;

/// What a linked module's table holds: its slots, then the value words, then a word for each stub.
#[derive(Debug, Drop)]
pub struct Tables {
    /// The number of slots.
    pub slots: u32,
    pub words: Words,
    pub stubs: Stubs,
}
