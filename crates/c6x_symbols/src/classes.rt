ghost use Rattle.std.specs.Prelude.{◌≡◌};
ghost use Rattle.c6x_symbols.specs.Groups.{is_common, is_definition, is_near, is_weak, source_of};

use crate::mention::Mention;
use crate::source::Source;
use c6x_elf::{SectionClass, SymbolBinding};

impl Mention {
    /// Whether its symbol is WEAK.
    pub fn is_weak(&self) -> bool
        ensures { result ≡ is_weak self.now }
    {
        match self.symbol.binding() {
            SymbolBinding::Weak => true,
            SymbolBinding::Local | SymbolBinding::Global => false,
        }
    }

    /// Whether its symbol is defined.
    pub fn is_definition(&self) -> bool
        ensures { result ≡ is_definition self.now }
    {
        match self.symbol.class() {
            SectionClass::Section(_) | SectionClass::Absolute => true,
            SectionClass::Undefined | SectionClass::Common | SectionClass::NearCommon => false,
        }
    }

    /// Whether its symbol is a common.
    pub fn is_common(&self) -> bool
        ensures { result ≡ is_common self.now }
    {
        match self.symbol.class() {
            SectionClass::Common | SectionClass::NearCommon => true,
            SectionClass::Undefined | SectionClass::Section(_) | SectionClass::Absolute => false,
        }
    }

    /// Whether its symbol is a near common.
    pub fn is_near(&self) -> bool
        ensures { result ≡ is_near self.now }
    {
        match self.symbol.class() {
            SectionClass::NearCommon => true,
            SectionClass::Undefined
            | SectionClass::Section(_)
            | SectionClass::Absolute
            | SectionClass::Common => false,
        }
    }

    /// Where its symbol stands.
    pub fn source(&self) -> Source
        ensures { result ≡ source_of self.now }
    {
        Source {
            object: self.object,
            symbol: self.number,
        }
    }
}
