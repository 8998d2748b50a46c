ghost use Rattle.std.specs.Prelude.{◌≡◌, ◌-◌, ◌^◌, ◌<◌, length, min};
ghost use Rattle.c6x_spec.specs.Firsts.{first_along};
ghost use Rattle.c6x_place.specs.Binding.{Passes, exec_refusal, fields_refusal, missing_refusal, must, name_refusal, counts_refusal, table_refusal};
ghost use Rattle.c6x_place.specs.Members.{all_fields};

use crate::bind_error::BindError;
use crate::bind_rule::BindRule;
use crate::limits::MOST_FIELDS;
use crate::lookups::{fields_of, index_of, needed_of, slots_of};
use crate::needs::number_of;
use c6x_base::Name;
use c6x_modules::Modules;
use c6x_plan::limits::MOST_SLOTS;
use std::alloc::Global;

/// The rule is broken where the test fails.
#[tactic(auto, unfolding(crate::specs::Binding::must))]
pub fn check(
    alloc: Global,
    holds: bool,
    rule: BindRule,
    process: u32,
    number: u32,
    name: &[u8],
) -> Result<(), BindError>
    ensures { Passes result (must holds rule process number name.now) }
{
    if holds {
        return Ok(());
    }
    Err(BindError::Rule {
        rule,
        process,
        number,
        name: Name::from_bytes(alloc, name)?,
    })
}

/// The executable's index is 0.
#[tactic(auto, unfolding(crate::specs::Binding::exec_refusal))]
pub fn check_executable(
    alloc: Global,
    modules: &Modules,
    process: u32,
    called: &[u8],
    start: u32,
) -> Result<(), BindError>
    ensures { Passes result (exec_refusal modules.now process called.now start) }
{
    let index = index_of(modules, start);
    check(
        alloc,
        index == 0,
        BindRule::ExecIndex,
        process,
        index,
        called,
    )
}

/// Each name that a member needs is a module's.
#[tactic(auto, using(crate::proofs::BoundWalks::along_more))]
pub fn check_missing(
    alloc: Global,
    modules: &Modules,
    list: &[u32],
    process: u32,
) -> Result<(), BindError>
    requires { length modules.now < 2 ^ 32 }
    ensures { Passes result (first_along (missing_refusal modules.now process) list.now) }
{
    for number in list {
        check_needed(alloc, modules, process, *number)?;
    }
    Ok(())
}

/// Each name that a module needs is a module's.
#[tactic(auto, using(crate::proofs::BoundWalks::along_more))]
fn check_needed(
    alloc: Global,
    modules: &Modules,
    process: u32,
    number: u32,
) -> Result<(), BindError>
    requires { length modules.now < 2 ^ 32 }
    ensures { Passes result (missing_refusal modules.now process number) }
{
    for name in needed_of(modules, number) {
        check_name(alloc, modules, process, number, name.as_bytes())?;
    }
    Ok(())
}

/// One name.
#[tactic(auto, unfolding(crate::specs::Binding::name_refusal))]
fn check_name(
    alloc: Global,
    modules: &Modules,
    process: u32,
    number: u32,
    name: &[u8],
) -> Result<(), BindError>
    requires { length modules.now < 2 ^ 32 }
    ensures { Passes result (name_refusal modules.now process number name.now) }
{
    let known = number_of(modules, name).is_some();
    check(alloc, known, BindRule::MissingModule, process, number, name)
}

/// No table has too many slots, and the fields together are not too many.
#[tactic(auto, unfolding(crate::specs::Binding::counts_refusal, crate::specs::Binding::fields_refusal))]
pub fn check_counts(
    alloc: Global,
    modules: &Modules,
    list: &[u32],
    process: u32,
    called: &[u8],
) -> Result<(), BindError>
    ensures { Passes result (counts_refusal modules.now process called.now list.now) }
{
    check_tables(alloc, modules, list, process, called)?;
    let few = count_fields(modules, list) <= MOST_FIELDS;
    check(alloc, few, BindRule::Count, process, 0, called)
}

/// No table has too many slots.
#[tactic(auto, using(crate::proofs::BoundWalks::along_more))]
fn check_tables(
    alloc: Global,
    modules: &Modules,
    list: &[u32],
    process: u32,
    called: &[u8],
) -> Result<(), BindError>
    ensures { Passes result (first_along (table_refusal modules.now process called.now) list.now) }
{
    for number in list {
        check_table(alloc, modules, process, called, *number)?;
    }
    Ok(())
}

/// One table.
#[tactic(auto, unfolding(crate::specs::Binding::table_refusal))]
fn check_table(
    alloc: Global,
    modules: &Modules,
    process: u32,
    called: &[u8],
    number: u32,
) -> Result<(), BindError>
    ensures { Passes result (table_refusal modules.now process called.now number) }
{
    let few = slots_of(modules, number) <= MOST_SLOTS;
    check(alloc, few, BindRule::Count, process, number, called)
}

/// How many fields the members have together, or the greatest number where they have more.
#[tactic(auto, using(crate::proofs::BoundWalks::count_more))]
fn count_fields(modules: &Modules, list: &[u32]) -> u64
    ensures { result ≡ min (all_fields modules.now list.now) (2 ^ 64 - 1) }
{
    let mut count: u64 = 0;
    for number in list {
        count = u64::saturating_add(count, fields_of(modules, *number).len() as u64);
    }
    count
}
