use crate::mode::Mode;
use crate::offset::Offset;
use crate::register::Register;

/// An address: `*` and what follows it.
#[derive(Clone, Copy)]
pub struct Address {
    /// None where a name stands in place of the base register.
    pub base: Option<Register>,
    pub mode: Mode,
    pub offset: Offset,
}
