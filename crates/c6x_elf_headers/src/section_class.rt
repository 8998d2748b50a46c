use crate::abi::{SHN_COMMON, SHN_LORESERVE, SHN_TIC6X_SCOMMON, SHN_UNDEF};

/// Where a symbol is defined (gABI chapter 4, "Special Section Indexes").
#[derive(Clone, Copy, Debug, PartialEq, Eq)]
pub enum SectionClass {
    /// Nowhere in this file.
    Undefined,
    /// In the section with this number.
    Section(u16),
    /// In no section; its value is absolute.
    Absolute,
    /// In no section yet; its value is an alignment.
    Common,
    /// As a common, near the data page pointer (SPRAB89).
    NearCommon,
}

impl SectionClass {
    ghost use Rattle.std.specs.Prelude.{◌≡◌};
    ghost use Rattle.c6x_elf_headers.specs.Attributes.{section_class};

    /// The class that an entry's section number says. That every other number from SHN_LORESERVE on counts as ABS is
    /// this project's reading.
    #[tactic(auto, unfolding(crate::specs::Attributes::section_class))]
    pub fn of_number(section: u16) -> SectionClass
        ensures { result ≡ section_class section }
    {
        match section {
            SHN_UNDEF => SectionClass::Undefined,
            SHN_COMMON => SectionClass::Common,
            SHN_TIC6X_SCOMMON => SectionClass::NearCommon,
            SHN_LORESERVE.. => SectionClass::Absolute,
            _ => SectionClass::Section(section),
        }
    }
}
