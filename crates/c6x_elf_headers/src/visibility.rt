use crate::abi::{STV_HIDDEN, STV_INTERNAL, STV_PROTECTED};

/// Which other modules see a symbol that its binding shows (gABI chapter 4, "Symbol Table",
/// `ELF32_ST_VISIBILITY`); the strictest one comes first.
#[derive(Clone, Copy, Debug, PartialEq, Eq)]
pub enum Visibility {
    Internal,
    Hidden,
    Protected,
    Default,
}

impl Visibility {
    ghost use Rattle.std.specs.Prelude.{◌≡◌, ◌≤◌, ◌⊎◌};
    ghost use Rattle.c6x_elf_headers.specs.Attributes.{other_visibility, strictest, strictness};

    /// The visibility that an entry's `other` says.
    #[tactic(auto, unfolding(crate::specs::Attributes::other_visibility))]
    pub fn of_other(other: u8) -> Visibility
        ensures { result ≡ other_visibility other }
    {
        match other % 4 {
            STV_INTERNAL => Visibility::Internal,
            STV_HIDDEN => Visibility::Hidden,
            STV_PROTECTED => Visibility::Protected,
            _ => Visibility::Default,
        }
    }

    /// The stricter of two visibilities.
    pub fn strictest(self, other: Visibility) -> Visibility
        ensures value { result ≡ strictest self other }
        ensures one { (result ≡ self) ⊎ (result ≡ other) }
        ensures first { strictness result ≤ strictness self }
        ensures second { strictness result ≤ strictness other }
    {
        match (self, other) {
            (Visibility::Internal, _) | (_, Visibility::Internal) => Visibility::Internal,
            (Visibility::Hidden, _) | (_, Visibility::Hidden) => Visibility::Hidden,
            (Visibility::Protected, _) | (_, Visibility::Protected) => Visibility::Protected,
            (Visibility::Default, Visibility::Default) => Visibility::Default,
        }
    }
}
