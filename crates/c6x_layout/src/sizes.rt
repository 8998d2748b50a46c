use crate::code::Code;
use crate::ends::Ends;
use crate::places::Places;

/// The numbers of a layout before they are known to be addresses.
#[derive(Clone, Copy, Debug)]
pub struct Sizes {
    pub code: Code,
    /// Where the tables of the text stand, from its start on.
    pub text: Places,
    pub table: u64,
    pub words: u64,
    /// Behind the words of the stubs.
    pub start: u64,
    pub ends: Ends,
}
