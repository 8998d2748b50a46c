use crate::abi::{STB_GLOBAL, STB_LOCAL, STB_WEAK};

/// Who sees a symbol (gABI chapter 4, "Symbol Table", `ELF32_ST_BIND`).
#[derive(Clone, Copy, Debug, PartialEq, Eq)]
pub enum SymbolBinding {
    /// Its own file alone.
    Local,
    /// All files.
    Global,
    /// All files, with less right to define the name.
    Weak,
}

impl SymbolBinding {
    ghost use Rattle.std.specs.Prelude.{◌≡◌, ◌<◌};
    ghost use Rattle.c6x_elf_headers.specs.Attributes.{binding_number, info_binding};

    /// The binding that an entry's `info` says. That every number but those of GLOBAL and WEAK counts as LOCAL is this
    /// project's reading.
    #[tactic(auto, unfolding(crate::specs::Attributes::info_binding))]
    pub fn of_info(info: u8) -> SymbolBinding
        ensures { result ≡ info_binding info }
    {
        match info / 16 {
            STB_GLOBAL => SymbolBinding::Global,
            STB_WEAK => SymbolBinding::Weak,
            _ => SymbolBinding::Local,
        }
    }

    /// The number of the binding: STB_LOCAL, STB_GLOBAL or STB_WEAK.
    pub fn number(self) -> u8
        ensures value { result ≡ binding_number self }
        ensures few { result < 3 }
    {
        match self {
            SymbolBinding::Local => STB_LOCAL,
            SymbolBinding::Global => STB_GLOBAL,
            SymbolBinding::Weak => STB_WEAK,
        }
    }
}
