use crate::section_class::SectionClass;
use crate::symbol_binding::SymbolBinding;
use crate::visibility::Visibility;

/// An entry of 16 bytes of a symbol table (gABI, chapter 4, "Symbol Table"). `name` is an offset into
/// the string table, `info` has the binding in its high and the type in its low four bits, `other` the
/// visibility in its low two, and `section` is a section's number or one of the reserved numbers.
#[derive(Clone, Copy, Debug, PartialEq, Eq)]
pub struct Symbol {
    pub name: u32,
    pub value: u32,
    pub size: u32,
    pub info: u8,
    pub other: u8,
    pub section: u16,
}

impl Symbol {
    ghost use Rattle.std.specs.Prelude.{◌≡◌};
    ghost use Rattle.c6x_elf_headers.specs.Attributes.{symbol_binding, symbol_class, symbol_type, symbol_visibility};

    /// Who sees the symbol.
    pub fn binding(&self) -> SymbolBinding
        ensures { result ≡ symbol_binding self.now }
    {
        SymbolBinding::of_info(self.info)
    }

    /// The type's number, STT_NOTYPE to STT_FILE or another one below 16.
    pub fn symbol_type(&self) -> u8
        ensures { result ≡ symbol_type self.now }
    {
        self.info % 16
    }

    /// Which other modules see the symbol.
    pub fn visibility(&self) -> Visibility
        ensures { result ≡ symbol_visibility self.now }
    {
        Visibility::of_other(self.other)
    }

    /// Where the symbol is defined.
    pub fn class(&self) -> SectionClass
        ensures { result ≡ symbol_class self.now }
    {
        SectionClass::of_number(self.section)
    }
}
