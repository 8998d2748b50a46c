ghost use Rattle.std.specs.Prelude.{◌≡◌, ◌≢◌, ◌+◌, ◌≤◌, None, Some, Ok, OnOk, IfOk, IsTrue, Bool};
ghost use Rattle.c6x_symbols.specs.EntryRules.{Passes, entry_rule, has_no_addend, is_fixed, is_import, is_inside, is_range, is_slot, is_text, is_word, kind_rule, may_move, must, reaches, value_rule, wants_none, IsField};
ghost use Rattle.c6x_reloc.specs.Table.{row_of};
ghost use Rattle.c6x_reloc.specs.Value.{value_of};
ghost use Rattle.c6x_reloc.specs.declared.origin.Origin.TheVariants.{Nothing};
ghost use Rattle.c6x_reloc.specs.declared.reloc_kind.RelocKind.{RelocKind};

use crate::link_rule::LinkRule;
use crate::reference::Reference;
use crate::region::Region;
use c6x_reloc::{Origin, RelocError, RelocKind, is_instruction, origin_of, size_of, value};

/// The value of an entry, 0 for a kind without a field, or the first rule that the entry breaks.
#[tactic(auto, unfolding(crate::specs::EntryRules::entry_rule))]
pub fn checked_value(reference: &Reference) -> Result<u32, LinkRule>
    ensures rules { Passes result (entry_rule reference.now) }
    ensures field { IfOk result (λ v. (kind : RelocKind) → reference.now.kind ≡ Some kind → (row_of kind).origin ≢ Nothing → IsField kind reference.now v) }
{
    let Some(kind) = reference.kind else {
        return Err(LinkRule::RelocKind);
    };
    let origin = origin_of(kind);
    match origin {
        Origin::Nothing => Ok(0),
        _ => kind_value(kind, origin, reference),
    }
}

/// The value of a kind with a field.
#[tactic(auto, unfolding(crate::specs::EntryRules::kind_rule))]
fn kind_value(kind: RelocKind, origin: Origin, reference: &Reference) -> Result<u32, LinkRule>
    ensures rules { Passes result (kind_rule kind origin reference.now) }
    ensures value { IfOk result (λ v. value_of kind reference.now.inputs ≡ Ok v) }
    ensures inside { IfOk result (λ v. reference.now.offset + (row_of kind).size ≤ reference.now.room) }
{
    check(is_inside(kind, reference), LinkRule::PlaceOutside)?;
    check(!matches!(kind, RelocKind::JUMP_SLOT), LinkRule::RelocKind)?;
    check(
        may_move(origin, reference, matches!(kind, RelocKind::ABS32)),
        LinkRule::TextAbsolute,
    )?;
    check(reaches(origin, reference), LinkRule::CrossSegment)?;
    check(has_no_addend(origin, reference), LinkRule::GotAddend)?;
    match value(kind, &reference.inputs) {
        Ok(value) => Ok(value),
        Err(RelocError::Align) => Err(LinkRule::RelocAlign),
        Err(RelocError::Range) => Err(LinkRule::RelocRange),
        Err(RelocError::Addend) => Err(LinkRule::GotAddend),
        Err(RelocError::Kind) => Err(LinkRule::RelocKind),
    }
}

/// Err with the rule where the test fails.
#[tactic(auto, unfolding(crate::specs::EntryRules::must))]
fn check(holds: bool, rule: LinkRule) -> Result<(), LinkRule>
    ensures rule { Passes result (must holds rule) }
    ensures holds { OnOk result (IsTrue holds) }
{
    if holds { Ok(()) } else { Err(rule) }
}

/// Whether the field's bytes lie in the section, and an instruction's at a multiple of 4.
#[tactic(auto, unfolding(crate::specs::EntryRules::is_inside))]
fn is_inside(kind: RelocKind, reference: &Reference) -> bool
    ensures is { result ≡ is_inside kind reference.now }
    ensures part { IsTrue result → reference.now.offset + (row_of kind).size ≤ reference.now.room }
{
    u64::from(reference.offset) + u64::from(size_of(kind)) <= u64::from(reference.room)
        && (!is_instruction(kind) || reference.offset % 4 == 0)
}

/// Whether an ABS kind may name this symbol here.
fn may_move(origin: Origin, reference: &Reference, is_word: bool) -> bool
    ensures { result ≡ may_move origin reference.now is_word }
{
    match origin {
        Origin::Absolute => {
            matches!(reference.target, Region::Absolute) || (!reference.in_text && is_word)
        }
        _ => true,
    }
}

/// Whether a PCR or an SBR kind may name this symbol here.
fn reaches(origin: Origin, reference: &Reference) -> bool
    ensures { result ≡ reaches origin reference.now }
{
    match origin {
        Origin::Packet => {
            reference.in_text && matches!(reference.target, Region::Text | Region::Import)
        }
        Origin::Table => matches!(reference.target, Region::Data),
        _ => true,
    }
}

/// Whether the entry names a GOT word or a stub.
fn wants_none(origin: Origin, reference: &Reference) -> bool
    ensures { result ≡ wants_none origin reference.now }
{
    match origin {
        Origin::Got => true,
        Origin::Packet => matches!(reference.target, Region::Import),
        _ => false,
    }
}

/// Whether the addend is 0 where it has to be.
#[tactic(auto, unfolding(crate::specs::EntryRules::has_no_addend))]
fn has_no_addend(origin: Origin, reference: &Reference) -> bool
    ensures { result ≡ has_no_addend origin reference.now }
{
    !wants_none(origin, reference) || reference.inputs.a.cast_unsigned() == 0
}
