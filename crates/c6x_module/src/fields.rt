ghost use Rattle.std.specs.Prelude.{◌≡◌, ◌*◌, ◌^◌, ◌<◌, ◌≤◌, All, IfOk, OnOk, length};
ghost use Rattle.c6x_spec.specs.Firsts.{first_along};
ghost use Rattle.c6x_module.specs.Valid.{IsInside};
ghost use Rattle.c6x_module.specs.Fields.{entry_refusal, field_of, fields_of, fields_refusal, IsPlaced, kind_refusal, place_refusal};
ghost use Rattle.c6x_module.specs.Refusals.{Passes};

use crate::checks::check;
use crate::field::Field;
use crate::module_error::ModuleError;
use crate::module_rule::ModuleRule;
use crate::overlaps::check_overlaps;
use crate::shape::is_inside;
use c6x_elf::{Rela, Segment};
use std::alloc::{AllocError, Global};

/// The kind of an entry that asks for nothing (SPRAB89, "Relocation").
pub const R_C6000_NONE: u8 = 0;
/// The kind of a word that holds a symbol's address with the addend.
pub const R_C6000_ABS32: u8 = 1;
/// The kind of a word that holds a symbol's address alone.
pub const R_C6000_JUMP_SLOT: u8 = 27;

/// The entries are of the three kinds that the loader knows, or L7.
#[tactic(auto, using(crate::proofs::FieldWalks::kinds_more))]
pub fn check_kinds(relas: &[Rela]) -> Result<(), ModuleError>
    ensures { Passes result (first_along kind_refusal relas.now) }
{
    for rela in relas {
        check_kind(rela)?;
    }
    Ok(())
}

/// An entry is.
#[tactic(auto, unfolding(crate::specs::Fields::kind_refusal))]
fn check_kind(rela: &Rela) -> Result<(), ModuleError>
    ensures { Passes result (kind_refusal rela.now) }
{
    let kind = rela.kind();
    let known = kind == R_C6000_NONE || kind == R_C6000_ABS32 || kind == R_C6000_JUMP_SLOT;
    check(known, ModuleRule::RelocKind, rela.offset)
}

/// The fields of the entries, in their order.
#[tactic(auto, using(crate::proofs::FieldWalks::fields_more))]
pub fn make_fields(alloc: Global, relas: &[Rela]) -> Result<Vec<Field>, AllocError>
    ensures { IfOk result (λ fields. fields.items ≡ fields_of relas.now) }
{
    let mut fields = Vec::new(alloc);
    for rela in relas {
        if rela.kind() != R_C6000_NONE {
            fields.push(field_of(rela))?;
        }
    }
    Ok(fields)
}

/// The field of an entry.
#[tactic(auto, unfolding(crate::specs::Fields::field_of))]
fn field_of(rela: &Rela) -> Field
    ensures { result ≡ field_of rela.now }
{
    Field {
        place: rela.offset,
        slot_kind: rela.kind() == R_C6000_JUMP_SLOT,
        symbol: rela.symbol(),
        addend: rela.addend,
    }
}

/// The fields lie in the data range (L8), and share no byte with one another or with the table (L9).
#[tactic(auto, unfolding(crate::specs::Fields::fields_refusal))]
pub fn check_fields(
    alloc: Global,
    range: &Segment,
    table: u32,
    slots: u32,
    fields: &[Field],
) -> Result<(), ModuleError>
    requires { IsInside range.now table (4 * slots) }
    ensures { Passes result (fields_refusal range.now table slots fields.now) }
{
    check_places(range, fields)?;
    check_overlaps(alloc, range, table, slots, fields)
}

/// All fields lie in the data range.
#[tactic(auto, using(crate::proofs::FieldWalks::places_more))]
fn check_places(range: &Segment, fields: &[Field]) -> Result<(), ModuleError>
    ensures passes { Passes result (first_along (place_refusal range.now) fields.now) }
    ensures inside { OnOk result (All (IsPlaced range.now) fields.now) }
{
    for field in fields {
        check_place(range, field)?;
    }
    Ok(())
}

/// A field lies in the data range.
#[tactic(auto, unfolding(crate::specs::Fields::place_refusal))]
fn check_place(range: &Segment, field: &Field) -> Result<(), ModuleError>
    ensures passes { Passes result (place_refusal range.now field.now) }
    ensures inside { OnOk result (IsPlaced range.now field.now) }
{
    check(
        is_inside(range, field.place, 4),
        ModuleRule::TextReloc,
        field.place,
    )
}

/// An executable begins at a word of its text, or L10.
#[tactic(auto, unfolding(crate::specs::Fields::entry_refusal))]
pub fn check_entry(text: &Segment, index: u32, entry: u32) -> Result<(), ModuleError>
    ensures { Passes result (entry_refusal text.now index entry) }
{
    let holds = index != 0 || entry.is_multiple_of(4) && is_inside(text, entry, 1);
    check(holds, ModuleRule::EntryOutside, entry)
}
