use crate::source::Source;

/// The commons of a name together.
#[derive(Clone, Copy, Debug, PartialEq, Eq)]
pub struct Common {
    /// The greatest size, in bytes.
    pub size: u32,
    /// The greatest alignment.
    pub align: u32,
    /// Whether one of them is near.
    pub near: bool,
    /// The first one of the greatest size.
    pub source: Source,
}
