ghost use Rattle.std.specs.Prelude.{IsTrue, OnOk};
ghost use Rattle.c6x_module.specs.Refusals.{must, Passes};

use crate::module_error::ModuleError;
use crate::module_rule::ModuleRule;

/// The rule is broken, with this number, where the test fails.
#[tactic(auto, unfolding(crate::specs::Refusals::must))]
pub fn check(holds: bool, rule: ModuleRule, number: u32) -> Result<(), ModuleError>
    ensures passes { Passes result (must holds rule number) }
    ensures holds { OnOk result (IsTrue holds) }
{
    if holds {
        Ok(())
    } else {
        Err(ModuleError::Rule { rule, number })
    }
}
