use c6x_base::Name;

/// A dynamic symbol of a linked module: an export, or an import, whose section is SHN_UNDEF.
#[derive(Debug, Drop)]
pub struct Shared {
    pub name: Name,
    /// The address of an export.
    pub value: u32,
    pub size: u32,
    pub info: u8,
    pub other: u8,
    /// TEXT_SECTION, DATA_SECTION, SHN_ABS or SHN_UNDEF.
    pub section: u16,
}
