ghost use Rattle.std.specs.Prelude.{◌≡◌, ◌^◌, ◌<◌, ◌≤◌, length, ℕ, IfOk};
ghost use Rattle.c6x_base.specs.Search.{AreNeeds};
ghost use Rattle.c6x_module.specs.Lookups.{symbols_of};
ghost use Rattle.c6x_place.specs.Binding.{Passes, bound_process, bound_to, list_refusal, process_refusal};
ghost use Rattle.c6x_place.specs.Needs.{needs_of};

use crate::bind_error::BindError;
use crate::bound_process::BoundProcess;
use crate::fields::check_resolved;
use crate::indices::check_indices;
use crate::rules::{check_counts, check_executable, check_missing};
use crate::targets::bind_members;
use c6x_base::{Row, search};
use c6x_modules::Modules;
use std::alloc::Global;

/// What a process of the module with the number `start` is bound to, or its first broken rule. `process` is its place
/// in the plan and `called` its name, by which a broken rule names it; `needs` says which modules each module needs.
#[tactic(auto, unfolding(crate::specs::Binding::process_refusal, crate::specs::Binding::bound_process))]
pub fn bind_process(
    alloc: Global,
    modules: &Modules,
    needs: &[Row<u32>],
    process: u32,
    called: &[u8],
    start: u32,
) -> Result<BoundProcess, BindError>
    requires short { length modules.now < 2 ^ 16 }
    requires known { needs.now ≡ needs_of modules.now }
    requires first { start < length modules.now }
    ensures passes { Passes result (process_refusal modules.now process called.now start) }
    ensures value { IfOk result (λ bound. bound ≡ bound_process modules.now start) }
{
    check_executable(alloc, modules, process, called, start)?;
    let list = search(alloc, needs, start)?;
    bind_list(alloc, modules, list, process, called)
}

/// The rules on the members of a search list, and what their fields stand for.
#[tactic(auto, unfolding(crate::specs::Binding::list_refusal))]
fn bind_list(
    alloc: Global,
    modules: &Modules,
    list: Vec<u32>,
    process: u32,
    called: &[u8],
) -> Result<BoundProcess, BindError>
    requires short { length list.items < 2 ^ 16 }
    requires modules { length modules.now < 2 ^ 32 }
    ensures passes { Passes result (list_refusal modules.now process called.now list.items) }
    ensures value { IfOk result (λ bound. bound ≡ bound_to modules.now list.items) }
{
    check_missing(alloc, modules, &list, process)?;
    check_indices(alloc, modules, &list, process, called)?;
    check_resolved(alloc, modules, &list, process)?;
    let targets = bind_members(alloc, modules, &list, process)?;
    check_counts(alloc, modules, &list, process, called)?;
    Ok(BoundProcess {
        modules: Row::of(list),
        targets: Row::of(targets),
    })
}
