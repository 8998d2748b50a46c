ghost use Rattle.std.specs.Prelude.{◌≡◌, ◌++◌, ◌^◌, ◌<◌, [], length, IfOk, OnOk};
ghost use Rattle.c6x_base.specs.Search.{AreNeeds};
ghost use Rattle.c6x_module.specs.declared.module.Module.{Module as Image};
ghost use Rattle.c6x_place.specs.Needs.{named_from, needs_of, needs_row, numbers_of, with_number};

use c6x_base::{Name, Row};
use c6x_modules::Modules;
use std::alloc::{AllocError, Global};

/// The number of the module with this name.
#[tactic(auto, using(crate::proofs::BoundWalks::named_more))]
pub fn number_of(modules: &Modules, name: &[u8]) -> Option<u32>
    requires { length modules.now < 2 ^ 32 }
    ensures { result ≡ named_from name.now 0 modules.now }
{
    for (number, image) in modules.as_slice().iter().enumerate() {
        if image.name.as_bytes() == name {
            return Some(number as u32);
        }
    }
    None
}

/// For each module which modules it needs, names that no module has left out.
#[tactic(auto, unfolding(crate::specs::Needs::needs_of))]
pub fn needs_of(alloc: Global, modules: &Modules) -> Result<Vec<Row<u32>>, AllocError>
    requires { length modules.now < 2 ^ 32 }
    ensures { IfOk result (λ needs. needs.items ≡ needs_of modules.now) }
{
    let mut needs = Vec::new(alloc);
    for image in modules.as_slice() {
        needs.push(Row::of(numbers_of(alloc, modules, image.needed.as_slice())?))?;
    }
    Ok(needs)
}

/// The numbers of the modules with these names.
#[tactic(auto, using(crate::proofs::BoundWalks::numbers_more))]
fn numbers_of(alloc: Global, modules: &Modules, names: &[Name]) -> Result<Vec<u32>, AllocError>
    requires { length modules.now < 2 ^ 32 }
    ensures { IfOk result (λ numbers. numbers.items ≡ numbers_of modules.now names.now) }
{
    let mut numbers = Vec::new(alloc);
    for name in names {
        put_number(&mut numbers, number_of(modules, name.as_bytes()))?;
    }
    Ok(numbers)
}

/// Puts a number last, if there is one.
fn put_number(numbers: &mut Vec<u32>, number: Option<u32>) -> Result<(), AllocError>
    ensures { OnOk result (numbers.new.items ≡ numbers.old.items ++ with_number number []) }
{
    if let Some(number) = number {
        numbers.push(number)?;
    }
    Ok(())
}
