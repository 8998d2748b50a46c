use crate::definition::Definition;

/// A name of the text.
#[derive(Clone, Copy)]
pub struct Symbol {
    /// The offset of its first appearance in the text.
    pub at: u32,
    /// The number of its bytes.
    pub len: u32,
    pub definition: Option<Definition>,
    pub global: bool,
    pub weak: bool,
    pub hidden: bool,
}
