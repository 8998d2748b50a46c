ghost use Rattle.std.specs.Prelude.{◌≡◌, ◌<◌};
ghost use Rattle.c6x_elf_headers.specs.Attributes.{info_binding, info_type, symbol_info};

use crate::symbol_binding::SymbolBinding;

/// The `info` of a symbol with this binding and this type, a number below 16 (gABI chapter 4, "Symbol Table",
/// `ELF32_ST_INFO`).
#[tactic(auto, unfolding(crate::specs::Attributes::info_binding))]
pub fn info_of(binding: SymbolBinding, symbol_type: u8) -> u8
    requires { symbol_type < 16 }
    ensures value { result ≡ symbol_info binding symbol_type }
    ensures binding { info_binding result ≡ binding }
    ensures symbol_type { info_type result ≡ symbol_type }
{
    16 * binding.number() + symbol_type
}
