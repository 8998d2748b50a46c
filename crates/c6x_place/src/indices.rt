ghost use Rattle.std.specs.Prelude.{◌≡◌, [], drop};
ghost use Rattle.c6x_spec.specs.Firsts.{first_along};
ghost use Rattle.c6x_base.specs.Search.{has};
ghost use Rattle.c6x_place.specs.Binding.{Passes, duplicates, index_refusal, indices_refusal, slots_refusal, unassigned_refusal};
ghost use Rattle.c6x_place.specs.Members.{greatest_index};

use crate::bind_error::BindError;
use crate::bind_rule::BindRule;
use crate::lookups::{index_of, slots_of};
use crate::rules::check;
use c6x_modules::Modules;
use std::alloc::Global;

/// The rules on the tables of the members: every module but the first has an index, no two have one, and every table
/// has a slot for each.
#[tactic(auto, unfolding(crate::specs::Binding::indices_refusal))]
pub fn check_indices(
    alloc: Global,
    modules: &Modules,
    list: &[u32],
    process: u32,
    called: &[u8],
) -> Result<(), BindError>
    ensures { Passes result (indices_refusal modules.now process called.now list.now) }
{
    check_assigned(alloc, modules, behind_first(list), process, called)?;
    check_distinct(alloc, modules, list, process, called)?;
    let greatest = greatest_index(modules, list);
    check_slots(alloc, modules, list, process, called, greatest)
}

/// The list without its first member.
fn behind_first(list: &[u32]) -> &[u32]
    ensures { result.now ≡ drop 1 list.now }
{
    if list.is_empty() { list } else { &list[1..] }
}

/// These modules have an index.
#[tactic(auto, using(crate::proofs::BoundWalks::along_more))]
fn check_assigned(
    alloc: Global,
    modules: &Modules,
    list: &[u32],
    process: u32,
    called: &[u8],
) -> Result<(), BindError>
    ensures { Passes result (first_along (unassigned_refusal modules.now process called.now) list.now) }
{
    for number in list {
        check_unassigned(alloc, modules, process, called, *number)?;
    }
    Ok(())
}

/// One of them.
#[tactic(auto, unfolding(crate::specs::Binding::unassigned_refusal))]
fn check_unassigned(
    alloc: Global,
    modules: &Modules,
    process: u32,
    called: &[u8],
    number: u32,
) -> Result<(), BindError>
    ensures { Passes result (unassigned_refusal modules.now process called.now number) }
{
    let assigned = index_of(modules, number) != 0;
    check(
        alloc,
        assigned,
        BindRule::UnassignedIndex,
        process,
        number,
        called,
    )
}

/// No two members have one index.
#[tactic(auto, using(crate::proofs::BoundWalks::duplicates_more))]
fn check_distinct(
    alloc: Global,
    modules: &Modules,
    list: &[u32],
    process: u32,
    called: &[u8],
) -> Result<(), BindError>
    ensures { Passes result (duplicates modules.now process called.now [] list.now) }
{
    let mut earlier = Vec::new(alloc);
    for number in list {
        check_index(alloc, modules, process, called, &earlier, *number)?;
        earlier.push(index_of(modules, *number))?;
    }
    Ok(())
}

/// No earlier member has the index.
#[tactic(auto, unfolding(crate::specs::Binding::index_refusal))]
fn check_index(
    alloc: Global,
    modules: &Modules,
    process: u32,
    called: &[u8],
    earlier: &[u32],
    number: u32,
) -> Result<(), BindError>
    ensures { Passes result (index_refusal modules.now process called.now earlier.now number) }
{
    let free = !has(earlier, index_of(modules, number));
    check(
        alloc,
        free,
        BindRule::DuplicateIndex,
        process,
        number,
        called,
    )
}

/// A number stands in a list.
fn has(list: &[u32], number: u32) -> bool
    ensures { result ≡ has list.now number }
{
    for member in list {
        if *member == number {
            return true;
        }
    }
    false
}

/// The greatest index of the members.
#[tactic(auto, using(crate::proofs::BoundWalks::greatest_more))]
fn greatest_index(modules: &Modules, list: &[u32]) -> u32
    ensures { result ≡ greatest_index modules.now list.now }
{
    let mut greatest = 0;
    for number in list {
        greatest = greatest.max(index_of(modules, *number));
    }
    greatest
}

/// Every table has a slot for the greatest index.
#[tactic(auto, using(crate::proofs::BoundWalks::along_more))]
fn check_slots(
    alloc: Global,
    modules: &Modules,
    list: &[u32],
    process: u32,
    called: &[u8],
    greatest: u32,
) -> Result<(), BindError>
    ensures { Passes result (first_along (slots_refusal modules.now process called.now greatest) list.now) }
{
    for number in list {
        check_slot(alloc, modules, process, called, greatest, *number)?;
    }
    Ok(())
}

/// One table.
#[tactic(auto, unfolding(crate::specs::Binding::slots_refusal))]
fn check_slot(
    alloc: Global,
    modules: &Modules,
    process: u32,
    called: &[u8],
    greatest: u32,
    number: u32,
) -> Result<(), BindError>
    ensures { Passes result (slots_refusal modules.now process called.now greatest number) }
{
    let wide = greatest < slots_of(modules, number);
    check(
        alloc,
        wide,
        BindRule::TableTooSmall,
        process,
        number,
        called,
    )
}
