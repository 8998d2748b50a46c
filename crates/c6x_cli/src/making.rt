ghost use Rattle.std.specs.Prelude.{◌≡◌, ◌<◌, ◌≤◌, ◌^◌, All, AllPairs, IfOk, [], false, length};
ghost use Rattle.c6x_asm.specs.Objects.{assembled};
ghost use Rattle.c6x_gen.specs.Limits.{IsText};
ghost use Rattle.c6x_modules.specs.Owned.{IsNew};
ghost use Rattle.c6x_symbols.specs.Objects.{IsObject};
ghost use Rattle.c6x_plan.specs.Limits.{HaveOtherNames, IsLinkPlan};
ghost use Rattle.c6x_cli_run.specs.Loading.{HasAdded};
ghost use Rattle.c6x_cli.specs.Objects.{or_broken};
ghost use Rattle.c6x_cli_steps.specs.Steps.{Decides};
ghost use Rattle.c6x_cli.specs.Made.{made_behind, with_made};

use crate::linking::module_of;
use crate::object::object_of;
use c6x_base::{Bytes, Name};
use c6x_cli_run::take_image;
use c6x_cli_steps::PrepareError;
use c6x_elf::File;
use c6x_modules::{MOST_OWNED_MODULES, Modules};
use c6x_plan::limits::MOST_MODULES;
use c6x_plan::{LinkPlan, ModulePlan};
use std::alloc::Global;

/// The modules that these sources and link plans make, in order.
pub fn make_modules(
    alloc: Global,
    sources: &[Bytes],
    links: &[LinkPlan],
    images: &[ModulePlan],
) -> Result<Modules, PrepareError>
    requires texts { All IsText sources.now }
    requires within { All IsLinkPlan links.now }
    requires sourced { length sources.now ≡ length images.now }
    requires linked { length links.now ≡ length images.now }
    requires few { length images.now ≤ MOST_MODULES }
    requires distinct { AllPairs HaveOtherNames images.now }
    ensures decides { Decides (λ modules. modules) (made_behind [] sources.now links.now images.now) result }
    ensures count { IfOk result (λ modules. length modules ≡ length images.now) }
{
    let mut modules = Modules::new(alloc);
    for (place, image) in images.iter().enumerate() {
        let source = sources[place].as_bytes();
        modules = with_made(alloc, modules, source, &links[place], image)?;
    }
    Ok(modules)
}

/// The modules with one more behind them, made of a source and a link plan.
#[tactic(auto, unfolding(crate::specs::Made::with_made), using(c6x_cli_run::proofs::Deciding::decides_first, c6x_cli_run::proofs::Deciding::decides_then))]
fn with_made(
    alloc: Global,
    modules: Modules,
    source: &[u8],
    link: &LinkPlan,
    image: &ModulePlan,
) -> Result<Modules, PrepareError>
    requires text { IsText source.now }
    requires within { IsLinkPlan link.now }
    requires few { length modules < MOST_OWNED_MODULES }
    requires fresh { IsNew modules image.now.name }
    ensures decides { Decides (λ more. more) (with_made modules source.now link.now image.now) result }
    ensures added { IfOk result (HasAdded modules image.now.name) }
{
    let object = made_object(alloc, &image.file, source)?;
    let file = module_of(alloc, &image.file, link, &[object])?;
    take_image(alloc, modules, image, file)
}

/// The object of a source.
#[tactic(auto, using(crate::proofs::Relocatable::is_relocatable))]
fn made_object(alloc: Global, name: &Name, source: &[u8]) -> Result<File, PrepareError>
    requires { IsText source.now }
    ensures decides { Decides (λ object. object) (or_broken name.now (assembled source.now)) result }
    ensures object { IfOk result (IsObject false) }
{
    object_of(alloc, name, source)
}
