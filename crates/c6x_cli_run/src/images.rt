ghost use Rattle.std.specs.Prelude.{◌≡◌, ◌<◌, ◌≤◌, false, AllPairs, IfOk, length};
ghost use Rattle.c6x_base.specs.declared.limits.TheConstants.{MOST_SEGMENTS};
ghost use Rattle.c6x_module.specs.Modules.{module_in};
ghost use Rattle.c6x_modules.specs.Owned.{IsNew};
ghost use Rattle.c6x_plan.specs.Limits.{HaveOtherNames};
ghost use Rattle.c6x_cli_run.specs.Loading.{HasAdded, image_steps, modules_steps, taken};
ghost use Rattle.c6x_cli_steps.specs.Steps.{Decides, Prepares};

use crate::labels::module_label;
use c6x_cli_steps::{PrepareError, fetch_elf, refuse};
use c6x_elf::File;
use c6x_module::ModuleError;
use c6x_modules::{MOST_OWNED_MODULES, Modules};
use c6x_plan::ModulePlan;
use c6x_plan::limits::MOST_MODULES;
use c6x_ports::Shelf;
use std::alloc::Global;

/// The modules of a plan, in its order.
pub fn fetch_modules<S: Shelf>(
    alloc: Global,
    shelf: &mut S,
    planned: &[ModulePlan],
) -> Result<Modules, PrepareError>
    requires few { length planned.now ≤ MOST_MODULES }
    requires distinct { AllPairs HaveOtherNames planned.now }
    ensures prepares { Prepares (λ modules. modules) (λ told. modules_steps told planned.now) (S.seen shelf.old) (S.seen shelf.new) result }
    ensures count { IfOk result (λ modules. length modules ≡ length planned.now) }
{
    let mut modules = Modules::new(alloc);
    for image in planned {
        modules = with_image(alloc, shelf, modules, image)?;
    }
    Ok(modules)
}

/// The modules with one of a plan behind them.
fn with_image<S: Shelf>(
    alloc: Global,
    shelf: &mut S,
    modules: Modules,
    image: &ModulePlan,
) -> Result<Modules, PrepareError>
    requires few { length modules < MOST_OWNED_MODULES }
    requires fresh { IsNew modules image.now.name }
    ensures prepares { Prepares (λ more. more) (λ told. image_steps modules told image.now) (S.seen shelf.old) (S.seen shelf.new) result }
    ensures added { IfOk result (HasAdded modules image.now.name) }
{
    let file = fetch_elf(alloc, shelf, &image.file)?;
    take_image(alloc, modules, image, file)
}

/// The modules with that of a file behind them, or the first rule that the file breaks.
#[tactic(auto, using(crate::proofs::Taking::is_taken, crate::proofs::Taking::is_refused, crate::proofs::Taking::has_added))]
pub fn take_image(
    alloc: Global,
    mut modules: Modules,
    image: &ModulePlan,
    file: File,
) -> Result<Modules, PrepareError>
    requires few { length modules < MOST_OWNED_MODULES }
    requires fresh { IsNew modules image.now.name }
    requires segments { length file.segments ≤ MOST_SEGMENTS }
    ensures decides { Decides (λ more. more) (taken modules image.now.name (module_in false image.now.name file)) result }
    ensures added { IfOk result (HasAdded modules image.now.name) }
{
    let Ok(name) = image.name.copy(alloc) else {
        return Err(PrepareError::Memory);
    };
    match modules.add(name, file) {
        Ok(()) => Ok(modules),
        Err(ModuleError::Rule { rule, number }) => {
            Err(refuse(alloc, module_label(rule), &image.name, number))
        }
        Err(ModuleError::NoMemory) => Err(PrepareError::Memory),
    }
}
