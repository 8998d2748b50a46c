ghost use Rattle.std.specs.Prelude.{◌≡◌, ℕ, ◌+◌, ◌*◌, ◌<◌, ◌≤◌, ◌||◌, Bool, List, [], ◌∷◌, ◌++◌, All, OnOk, false, length, replicate, slice_index_or};
ghost use Rattle.c6x_module.specs.Valid.{IsInside};
ghost use Rattle.c6x_module.specs.declared.field.Field.{Field as Entry};
ghost use Rattle.c6x_module.specs.Fields.{AreMarked, IsPlaced, is_shared, is_within, overlap_refusal, overlaps_from};
ghost use Rattle.c6x_module.specs.Refusals.{Passes};

use crate::checks::check;
use crate::field::Field;
use crate::module_error::ModuleError;
use crate::module_rule::ModuleRule;
use c6x_elf::Segment;
use std::alloc::Global;

/// No field shares a byte with the table or an earlier field, by a mark for each byte of the range.
pub fn check_overlaps(
    alloc: Global,
    range: &Segment,
    table: u32,
    slots: u32,
    fields: &[Field],
) -> Result<(), ModuleError>
    requires table { IsInside range.now table (4 * slots) }
    requires places { All (IsPlaced range.now) fields.now }
    ensures { Passes result (overlaps_from table slots [] fields.now) }
{
    let mut taken = vec![in alloc; false; range.memsz as usize]?;
    check_clear(&mut taken, range, table, slots, fields)
}

/// The same with no mark set.
fn check_clear(
    taken: &mut [bool],
    range: &Segment,
    table: u32,
    slots: u32,
    fields: &[Field],
) -> Result<(), ModuleError>
    requires clear { taken.old ≡ replicate range.now.memsz false }
    requires table { IsInside range.now table (4 * slots) }
    requires places { All (IsPlaced range.now) fields.now }
    ensures { Passes result (overlaps_from table slots [] fields.now) }
{
    mark(taken, (table - range.vaddr) as usize, 4 * slots as usize);
    check_along(taken, range, table, slots, fields)
}

/// The same with the table's bytes marked.
#[tactic(auto, using(crate::proofs::Marks::overlaps_more))]
fn check_along(
    taken: &mut [bool],
    range: &Segment,
    table: u32,
    slots: u32,
    fields: &[Field],
) -> Result<(), ModuleError>
    requires size { length taken.old ≡ range.now.memsz }
    requires marked { AreMarked range.now.vaddr table slots [] taken.old }
    requires places { All (IsPlaced range.now) fields.now }
    ensures { Passes result (overlaps_from table slots [] fields.now) }
{
    for field in fields {
        take_field(taken, range, table, slots, field)?;
    }
    Ok(())
}

/// A field's four bytes are not marked, and then are.
fn take_field(
    taken: &mut [bool],
    range: &Segment,
    table: u32,
    slots: u32,
    field: &Field,
) -> Result<(), ModuleError>
    requires size { length taken.old ≡ range.now.memsz }
    requires place { IsPlaced range.now field.now }
    ensures size { length taken.new ≡ length taken.old }
    ensures passes { (earlier : List Entry) → AreMarked range.now.vaddr table slots earlier taken.old → Passes result (overlap_refusal table slots earlier field.now) }
    ensures marked { (earlier : List Entry) → AreMarked range.now.vaddr table slots earlier taken.old → OnOk result (AreMarked range.now.vaddr table slots (earlier ++ field.now ∷ []) taken.new) }
{
    let at = (field.place - range.vaddr) as usize;
    check_free(taken, range, table, slots, field)?;
    mark(taken, at, 4);
    Ok(())
}

/// A field's four bytes are not marked.
fn check_free(
    taken: &[bool],
    range: &Segment,
    table: u32,
    slots: u32,
    field: &Field,
) -> Result<(), ModuleError>
    requires size { length taken.now ≡ range.now.memsz }
    requires place { IsPlaced range.now field.now }
    ensures { (earlier : List Entry) → AreMarked range.now.vaddr table slots earlier taken.now → Passes result (overlap_refusal table slots earlier field.now) }
{
    let at = (field.place - range.vaddr) as usize;
    let free = !is_shared(taken, at);
    check(free, ModuleRule::FieldOverlap, field.place)
}

/// One of four bytes is marked.
fn is_shared(taken: &[bool], at: usize) -> bool
    requires { at + 4 ≤ length taken.now }
    ensures { result ≡ (slice_index_or taken.now at false || slice_index_or taken.now (at + 1) false || slice_index_or taken.now (at + 2) false || slice_index_or taken.now (at + 3) false) }
{
    taken[at] || taken[at + 1] || taken[at + 2] || taken[at + 3]
}

/// Marks bytes.
fn mark(taken: &mut [bool], at: usize, len: usize)
    requires { at + len ≤ length taken.old }
    ensures size { length taken.new ≡ length taken.old }
    ensures marks { (k : ℕ) (d : Bool) → k < length taken.old → slice_index_or taken.new k d ≡ (is_within at len k || slice_index_or taken.old k d) }
{
    taken[at..at + len].fill(true);
}
