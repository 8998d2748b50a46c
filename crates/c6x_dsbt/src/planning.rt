ghost use Rattle.std.specs.Prelude.{◌≡◌, ◌≤◌, false, All, IfOk, length};
ghost use Rattle.c6x_symbols.specs.Objects.{IsObject};
ghost use Rattle.c6x_plan.specs.declared.limits.TheConstants.{MOST_OBJECTS};
ghost use Rattle.c6x_symbols.specs.Rules.{Passes};
ghost use Rattle.c6x_dsbt.specs.Needs.{stubs_of, words_of};
ghost use Rattle.c6x_dsbt.specs.Plans.{has_index, has_size, tables_refusal};

use crate::needing::add_objects;
use crate::stubs::Stubs;
use crate::tables::Tables;
use crate::words::Words;
use c6x_elf::File;
use c6x_plan::LinkPlan;
use c6x_plan::limits::MOST_SLOTS;
use c6x_symbols::{Bindings, LinkError, LinkRule, check};
use std::alloc::{AllocError, Global};

/// The table's slots, the value words and the stubs of a link, the latter in order of first need; or the first broken
/// rule of the plan's index (K5) and of its table's size (K6).
#[tactic(auto, unfolding(crate::specs::Plans::tables_refusal))]
pub fn plan_tables(
    alloc: Global,
    objects: &[File],
    bindings: &Bindings,
    plan: &LinkPlan,
) -> Result<Tables, LinkError>
    requires few { length objects.now ≤ MOST_OBJECTS }
    requires form { All (IsObject false) objects.now }
    ensures passes { Passes result (tables_refusal plan.now.library plan.now.index plan.now.table) }
    ensures slots { IfOk result (λ tables. tables.slots ≡ plan.now.table) }
    ensures words { IfOk result (λ tables. tables.words ≡ words_of objects.now bindings.now) }
    ensures stubs { IfOk result (λ tables. tables.stubs ≡ stubs_of objects.now bindings.now) }
{
    let index = has_index(plan.library, plan.index, plan.table);
    check(alloc, index, LinkRule::BadIndex, 0, plan.index)?;
    check(
        alloc,
        has_size(plan.table),
        LinkRule::BadSize,
        0,
        plan.table,
    )?;
    Ok(all_tables(alloc, objects, bindings, plan.table)?)
}

/// The words and stubs of a table with so many slots.
#[tactic(auto, unfolding(crate::specs::Needs::words_of, crate::specs::Needs::stubs_of), using(crate::proofs::Folded::words_folded, crate::proofs::Folded::stubs_folded))]
fn all_tables(
    alloc: Global,
    objects: &[File],
    bindings: &Bindings,
    slots: u32,
) -> Result<Tables, AllocError>
    requires few { length objects.now ≤ MOST_OBJECTS }
    requires form { All (IsObject false) objects.now }
    ensures slots { IfOk result (λ tables. tables.slots ≡ slots) }
    ensures words { IfOk result (λ tables. tables.words ≡ words_of objects.now bindings.now) }
    ensures stubs { IfOk result (λ tables. tables.stubs ≡ stubs_of objects.now bindings.now) }
{
    let mut tables = Tables {
        slots,
        words: Words::new(alloc),
        stubs: Stubs::new(alloc),
    };
    add_objects(alloc, &mut tables, bindings, objects)?;
    Ok(tables)
}

/// Whether a module may have this index in a table of this size.
#[tactic(auto, unfolding(crate::specs::Plans::has_index))]
fn has_index(library: bool, index: u32, table: u32) -> bool
    ensures { result ≡ has_index library index table }
{
    (if library { index != 0 } else { index == 0 }) && index < table
}

/// Whether a table may have so many slots.
#[tactic(auto, unfolding(crate::specs::Plans::has_size))]
fn has_size(table: u32) -> bool
    ensures { result ≡ has_size table }
{
    1 <= table && table <= MOST_SLOTS
}
