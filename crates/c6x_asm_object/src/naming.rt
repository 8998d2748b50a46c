ghost use Rattle.std.specs.Prelude.{◌≡◌, codes};
ghost use Rattle.c6x_asm_object.specs.Kinds.{is_under, kind_named, first_align};

use crate::section_kind::SectionKind;
use c6x_asm_lines::same_bytes;

fn is_under(name: &[u8], front: &[u8], bytes: &[u8]) -> bool
    ensures { result ≡ is_under name.now front.now bytes.now }
{
    same_bytes(bytes, name) || bytes.starts_with(front)
}

/// What a section with this name holds.
#[tactic(auto, unfolding(crate::specs::Kinds::kind_named))]
pub fn kind_named(bytes: &[u8]) -> SectionKind
    ensures { result ≡ kind_named bytes.now }
{
    if is_under(b".text", b".text.", bytes) {
        SectionKind::Text
    } else if is_under(b".const", b".const.", bytes) {
        SectionKind::Constant
    } else if is_under(b".bss", b".bss.", bytes) || is_under(b".far", b".far.", bytes) {
        SectionKind::Zero
    } else {
        SectionKind::Data
    }
}

/// The alignment that a section begins with.
pub fn first_align(kind: SectionKind) -> u32
    ensures { result ≡ first_align kind }
{
    match kind {
        SectionKind::Text => 32,
        _ => 8,
    }
}
