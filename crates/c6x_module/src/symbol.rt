use c6x_base::Name;

/// A dynamic symbol (gABI chapter 4, "Symbol Table"), with its name in place of the name's offset.
#[derive(Debug, Drop)]
pub struct DynSymbol {
    pub name: Name,
    /// Its address as in the file, or its value where it is absolute.
    pub value: u32,
    /// Its binding in the high four bits, its type in the low four.
    pub info: u8,
    /// Its visibility in the low two bits.
    pub other: u8,
    /// The number of its section; 0 where it is undefined.
    pub section: u16,
}
