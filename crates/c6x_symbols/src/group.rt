use crate::common::Common;
use crate::source::Source;
use c6x_elf::Visibility;

/// What all mentions of a name say together.
#[derive(Clone, Copy, Debug, PartialEq, Eq)]
pub struct Group {
    /// The first strong definition.
    pub strong: Option<Source>,
    /// The object of the second one.
    pub second: Option<u32>,
    pub common: Option<Common>,
    /// The first weak definition.
    pub weak: Option<Source>,
    /// Whether every mention is weak.
    pub all_weak: bool,
    /// The strictest visibility.
    pub visibility: Visibility,
}
