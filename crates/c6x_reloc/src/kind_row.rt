use crate::origin::Origin;

/// A kind's row in the table of relocations.
#[derive(Clone, Copy, Debug)]
pub struct KindRow {
    /// The kind's number in a Rela entry's info.
    pub number: u8,
    pub origin: Origin,
    /// The value is divided by two to this power, and has to be a multiple.
    pub step: u32,
    /// So many low bits of the quotient are left out of the field.
    pub skip: u32,
    /// The field's lowest bit.
    pub low: u32,
    /// The field's bits; 0 for no field.
    pub width: u32,
    /// The bytes of the number in which the field stands: 4, 2 or 1.
    pub size: u32,
    /// The number is an instruction's word.
    pub instruction: bool,
    /// The least quotient that fits.
    pub least: i64,
    /// The greatest quotient that fits.
    pub most: i64,
}
