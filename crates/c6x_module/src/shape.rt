ghost use Rattle.std.specs.Prelude.{◌≡◌, ◌+◌, ◌*◌, ◌^◌, ◌<◌, ◌≤◌, OnOk, IsTrue, false};
ghost use Rattle.c6x_spec.specs.Firsts.{first_along};
ghost use Rattle.c6x_elf.specs.Abi.{DT_DSBT_BASE as base_tag, DT_DSBT_SIZE as size_tag};
ghost use Rattle.c6x_module.specs.Alignment.{is_alignment};
ghost use Rattle.c6x_module.specs.Valid.{IsInside};
ghost use Rattle.c6x_module.specs.Entries.{tag_or};
ghost use Rattle.c6x_module.specs.Refusals.{Passes};
ghost use Rattle.c6x_module.specs.Shape.{align_refusal, form_refusal, forms_along, init_refusal, is_init, is_inside, shape_refusal, table_refusal};

use crate::checks::check;
use crate::entries::tag_or;
use crate::module_error::ModuleError;
use crate::module_rule::ModuleRule;
use c6x_elf::abi::{
    DT_DSBT_BASE, DT_DSBT_SIZE, DT_FINI, DT_FINI_ARRAY, DT_INIT, DT_INIT_ARRAY, DT_PLTREL,
    DT_PREINIT_ARRAY, DT_REL, DT_RELA,
};
use c6x_elf::{Dyn, Segment};

/// The rules L3 to L6: alignments, the table, no code that runs by itself, relocations with addends.
#[tactic(auto, unfolding(crate::specs::Shape::shape_refusal))]
pub fn check_shape(text: &Segment, range: &Segment, entries: &[Dyn]) -> Result<(), ModuleError>
    ensures passes { Passes result (shape_refusal text.now range.now entries.now) }
    ensures table { OnOk result (IsInside range.now (tag_or 0 base_tag entries.now) (4 * tag_or 0 size_tag entries.now)) }
{
    check_alignments(text, range)?;
    check_table(
        range,
        tag_or(entries, DT_DSBT_BASE, 0),
        tag_or(entries, DT_DSBT_SIZE, 0),
    )?;
    check_inits(entries)?;
    check_forms(entries)
}

/// An alignment that can be met.
fn is_alignment(align: u32) -> bool
    ensures { result ≡ is_alignment align }
{
    align == 0 || align.is_power_of_two() && align <= 65_536
}

/// The text begins at a fetch packet, and both alignments can be met.
#[tactic(auto, unfolding(crate::specs::Shape::align_refusal))]
fn check_alignments(text: &Segment, range: &Segment) -> Result<(), ModuleError>
    ensures { Passes result (align_refusal text.now range.now) }
{
    check(
        text.vaddr.is_multiple_of(32),
        ModuleRule::TextAlign,
        text.vaddr,
    )?;
    check(is_alignment(text.align), ModuleRule::TextAlign, text.align)?;
    check(
        is_alignment(range.align),
        ModuleRule::TextAlign,
        range.align,
    )
}

/// The bytes lie in the memory of a segment.
#[tactic(auto, unfolding(crate::specs::Shape::is_inside))]
pub fn is_inside(segment: &Segment, at: u32, count: u64) -> bool
    requires { count < 2 ^ 62 }
    ensures value { result ≡ is_inside segment.now at count }
    ensures fact { IsTrue result → IsInside segment.now at count }
{
    segment.vaddr <= at
        && u64::from(at) + count <= u64::from(segment.vaddr) + u64::from(segment.memsz)
}

/// The table is made of whole words of the data range.
#[tactic(auto, unfolding(crate::specs::Shape::table_refusal))]
fn check_table(range: &Segment, table: u32, slots: u32) -> Result<(), ModuleError>
    ensures passes { Passes result (table_refusal range.now table slots) }
    ensures inside { OnOk result (IsInside range.now table (4 * slots)) }
{
    let holds = table.is_multiple_of(4)
        && 1 <= slots
        && is_inside(range, table, 4 * u64::from(slots));
    check(holds, ModuleRule::TableOutside, table)
}

/// The tag names code that runs before the entry or after the end.
#[tactic(auto, unfolding(crate::specs::Shape::is_init))]
fn is_init(tag: u32) -> bool
    ensures { result ≡ is_init tag }
{
    tag == DT_INIT
        || tag == DT_FINI
        || tag == DT_INIT_ARRAY
        || tag == DT_FINI_ARRAY
        || tag == DT_PREINIT_ARRAY
}

/// No entry names such code.
#[tactic(auto, using(crate::proofs::EntryWalks::inits_more))]
fn check_inits(entries: &[Dyn]) -> Result<(), ModuleError>
    ensures { Passes result (first_along init_refusal entries.now) }
{
    for entry in entries {
        check_init(entry)?;
    }
    Ok(())
}

/// An entry does not.
#[tactic(auto, unfolding(crate::specs::Shape::init_refusal))]
fn check_init(entry: &Dyn) -> Result<(), ModuleError>
    ensures { Passes result (init_refusal entry.now) }
{
    check(!is_init(entry.tag), ModuleRule::InitCode, entry.tag)
}

/// Relocation entries have addends.
#[tactic(auto, using(crate::proofs::EntryWalks::forms_more))]
fn check_forms(entries: &[Dyn]) -> Result<(), ModuleError>
    ensures { Passes result (forms_along false entries.now) }
{
    let mut had = false;
    for entry in entries {
        check_form(had, entry)?;
        had = had || entry.tag == DT_PLTREL;
    }
    Ok(())
}

/// An entry does not say otherwise, where an earlier one may have told the form.
#[tactic(auto, unfolding(crate::specs::Shape::form_refusal))]
fn check_form(had: bool, entry: &Dyn) -> Result<(), ModuleError>
    ensures { Passes result (form_refusal had entry.now) }
{
    let holds = entry.tag != DT_REL && (had || entry.tag != DT_PLTREL || entry.value == DT_RELA);
    check(holds, ModuleRule::RelForm, entry.tag)
}
