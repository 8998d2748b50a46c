ghost use Rattle.std.specs.Prelude.{◌≡◌};
ghost use Rattle.c6x_module.specs.Lookups.{is_default, is_defined, is_export, is_local, is_own, is_shown, is_weak, is_weak_symbol};

use crate::symbol::DynSymbol;
use c6x_elf::{SectionClass, SymbolBinding, Visibility};

impl DynSymbol {
    /// A look-up by name may find the symbol: it is GLOBAL or WEAK, defined, and other modules see it.
    #[tactic(auto, unfolding(crate::specs::Lookups::is_export))]
    pub fn is_export(&self) -> bool
        ensures { result ≡ is_export self.now }
    {
        !is_local(SymbolBinding::of_info(self.info))
            && is_defined(SectionClass::of_number(self.section))
            && is_shown(Visibility::of_other(self.other))
    }

    /// The symbol is its module's own: it is LOCAL, or defined and of another visibility than DEFAULT.
    #[tactic(auto, unfolding(crate::specs::Lookups::is_own))]
    pub fn is_own(&self) -> bool
        ensures { result ≡ is_own self.now }
    {
        is_local(SymbolBinding::of_info(self.info))
            || is_defined(SectionClass::of_number(self.section))
                && !is_default(Visibility::of_other(self.other))
    }

    /// Its binding is WEAK.
    #[tactic(auto, unfolding(crate::specs::Lookups::is_weak_symbol))]
    pub fn is_weak(&self) -> bool
        ensures { result ≡ is_weak_symbol self.now }
    {
        is_weak(SymbolBinding::of_info(self.info))
    }
}

fn is_local(binding: SymbolBinding) -> bool
    ensures { result ≡ is_local binding }
{
    match binding {
        SymbolBinding::Local => true,
        SymbolBinding::Global | SymbolBinding::Weak => false,
    }
}

fn is_weak(binding: SymbolBinding) -> bool
    ensures { result ≡ is_weak binding }
{
    match binding {
        SymbolBinding::Weak => true,
        SymbolBinding::Global | SymbolBinding::Local => false,
    }
}

fn is_defined(class: SectionClass) -> bool
    ensures { result ≡ is_defined class }
{
    match class {
        SectionClass::Undefined => false,
        SectionClass::Section(_)
        | SectionClass::Absolute
        | SectionClass::Common
        | SectionClass::NearCommon => true,
    }
}

fn is_default(visibility: Visibility) -> bool
    ensures { result ≡ is_default visibility }
{
    match visibility {
        Visibility::Default => true,
        Visibility::Internal | Visibility::Hidden | Visibility::Protected => false,
    }
}

fn is_shown(visibility: Visibility) -> bool
    ensures { result ≡ is_shown visibility }
{
    match visibility {
        Visibility::Default | Visibility::Protected => true,
        Visibility::Internal | Visibility::Hidden => false,
    }
}
