ghost use Rattle.std.specs.Prelude.{◌≡◌, ◌≤◌, false, All, IfOk, None, length};
ghost use Rattle.c6x_symbols.specs.Objects.{IsObject};
ghost use Rattle.c6x_plan.specs.declared.limits.TheConstants.{MOST_OBJECTS};
ghost use Rattle.c6x_symbols.specs.Binding.{name_refusal};
ghost use Rattle.c6x_symbols.specs.Bindings.{bindings_of, names_refusal};
ghost use Rattle.c6x_symbols.specs.Rules.{Passes};

use crate::bindings::Bindings;
use crate::choosing::is_lost;
use crate::group::Group;
use crate::link_error::LinkError;
use crate::link_rule::LinkRule;
use crate::mentions::groups_of;
use c6x_elf::File;
use std::alloc::Global;

/// What each name of the objects is bound to, in order of first appearance, or the first broken rule of the names:
/// for each in order that it has at most one strong definition (K1), and that it is defined where no other module sees
/// it (K2).
pub fn resolve(alloc: Global, objects: &[File]) -> Result<Bindings, LinkError>
    requires few { length objects.now ≤ MOST_OBJECTS }
    requires form { All (IsObject false) objects.now }
    ensures passes { Passes result (names_refusal (bindings_of objects.now)) }
    ensures value { IfOk result (λ bindings. bindings ≡ bindings_of objects.now) }
{
    let bindings = all_bindings(alloc, objects)?;
    check_names(alloc, &bindings)?;
    Ok(bindings)
}

/// The names of the objects, whatever rules they break.
#[tactic(auto, unfolding(crate::specs::Bindings::bindings_of), using(crate::proofs::Bound::all_bound, crate::proofs::Bound::in_step))]
fn all_bindings(alloc: Global, objects: &[File]) -> Result<Bindings, LinkError>
    requires few { length objects.now ≤ MOST_OBJECTS }
    requires form { All (IsObject false) objects.now }
    ensures passes { Passes result None }
    ensures value { IfOk result (λ bindings. bindings ≡ bindings_of objects.now) }
{
    let groups = groups_of(alloc, objects)?;
    Ok(Bindings::of(groups.names, groups.list))
}

/// Checks the rules on names, in order.
#[tactic(auto, unfolding(crate::specs::Bindings::names_refusal), using(crate::proofs::Bound::names_drop))]
fn check_names(alloc: Global, bindings: &Bindings) -> Result<(), LinkError>
    ensures { Passes result (names_refusal bindings.now) }
{
    for number in 0..bindings.len() {
        check_name(alloc, bindings.name(number), bindings.group(number))?;
    }
    Ok(())
}

/// Checks the rules on one name.
#[tactic(auto, unfolding(crate::specs::Binding::name_refusal, crate::specs::Rules::must))]
fn check_name(alloc: Global, name: &[u8], group: &Group) -> Result<(), LinkError>
    ensures { Passes result (name_refusal name.now group.now) }
{
    if let Some(object) = group.second {
        let rule = LinkRule::DuplicateStrong;
        return Err(LinkError::telling(alloc, rule, object, 0, name));
    }
    if is_lost(name, group) {
        let rule = LinkRule::HiddenUndefined;
        return Err(LinkError::telling(alloc, rule, 0, 0, name));
    }
    Ok(())
}
