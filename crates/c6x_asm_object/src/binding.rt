ghost use Rattle.std.specs.Prelude.{◌≡◌};
ghost use Rattle.c6x_asm_object.specs.Bindings.{is_shared, binding, is_local, visibility, definition_or_none};
ghost use Rattle.c6x_asm_object.specs.FileNames.{is_in};

use crate::definition::Definition;
use crate::symbol::Symbol;
use c6x_elf::SymbolBinding;
use c6x_elf::abi::{SHN_COMMON, SHN_TIC6X_SCOMMON, SHN_UNDEF, STB_LOCAL, STV_DEFAULT, STV_HIDDEN};

fn is_shared(definition: Option<Definition>) -> bool
    ensures { result ≡ is_shared definition }
{
    match definition {
        None => true,
        Some(definition) => {
            definition.section == usize::from(SHN_COMMON)
                || definition.section == usize::from(SHN_TIC6X_SCOMMON)
        }
    }
}

/// The binding of a symbol: an undefined name and a common are global too.
#[tactic(auto, unfolding(crate::specs::Bindings::binding))]
pub fn binding(symbol: Symbol) -> SymbolBinding
    ensures { result ≡ binding symbol }
{
    if symbol.weak {
        SymbolBinding::Weak
    } else if symbol.global || is_shared(symbol.definition) {
        SymbolBinding::Global
    } else {
        SymbolBinding::Local
    }
}

/// Whether a symbol is seen in its own object alone.
pub fn is_local(symbol: Symbol) -> bool
    ensures { result ≡ is_local symbol }
{
    binding(symbol).number() == STB_LOCAL
}

/// Whether a symbol is one of the local names, or one of the others.
pub fn is_in(local: bool, symbol: Symbol) -> bool
    ensures { result ≡ is_in local symbol }
{
    if local {
        is_local(symbol)
    } else {
        !is_local(symbol)
    }
}

/// The visibility of a symbol.
pub fn visibility(symbol: Symbol) -> u8
    ensures { result ≡ visibility symbol }
{
    if symbol.hidden {
        STV_HIDDEN
    } else {
        STV_DEFAULT
    }
}

/// The place of a symbol, which is section 0 where it has none.
pub fn definition_or_none(definition: Option<Definition>) -> Definition
    ensures { result ≡ definition_or_none definition }
{
    match definition {
        None => Definition {
            section: usize::from(SHN_UNDEF),
            value: 0,
            size: 0,
        },
        Some(definition) => definition,
    }
}
