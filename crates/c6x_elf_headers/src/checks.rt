ghost use Rattle.std.specs.Prelude.{◌≡◌, ◌+◌, ◌^◌, ◌<◌, ◌≤◌, length, IsTrue, OnOk};
ghost use Rattle.c6x_elf_headers.specs.Rules.{must, whole, Passes};

use crate::elf_error::ElfError;
use crate::elf_rule::ElfRule;

/// The rule is broken at this place where the test fails.
#[tactic(auto, unfolding(crate::specs::Rules::must))]
pub fn check(holds: bool, rule: ElfRule, place: u32) -> Result<(), ElfError>
    ensures passes { Passes result (must holds rule place) }
    ensures holds { OnOk result (IsTrue holds) }
{
    if holds {
        Ok(())
    } else {
        Err(ElfError::Rule { rule, place })
    }
}

/// The file has `count` bytes from `at` on, or is cut there.
#[tactic(auto, unfolding(crate::specs::Rules::whole))]
pub fn need(bytes: &[u8], at: u32, count: u32) -> Result<(), ElfError>
    ensures passes { Passes result (whole bytes.now at count) }
    ensures within { OnOk result (at + count ≤ length bytes.now) }
{
    check(
        at as usize + count as usize <= bytes.len(),
        ElfRule::Short,
        at,
    )
}
