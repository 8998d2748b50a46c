ghost use Rattle.std.specs.Prelude.{◌≡◌, IsTrue, OnOk};
ghost use Rattle.c6x_symbols.specs.Rules.{Passes, Refusal, Tells, must, refusal};

use crate::link_error::LinkError;
use crate::link_rule::LinkRule;
use c6x_base::Name;
use std::alloc::Global;

impl LinkError {
    /// The error that tells a broken rule, or want of memory for the name.
    pub fn telling(alloc: Global, rule: LinkRule, object: u32, place: u32, name: &[u8]) -> LinkError
        ensures { Tells result (record { rule = rule; object = object; place = place; name = name.now }) }
    {
        match Name::from_bytes(alloc, name) {
            Ok(name) => LinkError::Rule {
                rule,
                object,
                place,
                name,
            },
            Err(error) => error.into(),
        }
    }
}

/// Answers a rule that tells no name, unless it holds.
#[tactic(auto, unfolding(crate::specs::Rules::must))]
pub fn check(
    alloc: Global,
    holds: bool,
    rule: LinkRule,
    object: u32,
    place: u32,
) -> Result<(), LinkError>
    ensures passes { Passes result (must holds (refusal rule object place)) }
    ensures holds { OnOk result (IsTrue holds) }
{
    if holds {
        Ok(())
    } else {
        Err(LinkError::telling(alloc, rule, object, place, &[]))
    }
}
