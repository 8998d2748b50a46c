ghost use Rattle.std.specs.Prelude.{◌≡◌, ◌≤◌, IfOk};
ghost use Rattle.c6x_gen.specs.Generated.{generated};
ghost use Rattle.c6x_gen.specs.Limits.{IsWithin};

use crate::generated::Generated;
use crate::links::links_of;
use crate::plans::run_plan_of;
use crate::sources::sources_of;
use std::alloc::{AllocError, Global};

/// What a number of at most six digits generates.
///
/// Library k, for k from 1 to 11, is `f` and k in decimal: that is its name as a module, as a file and as a function. It has
/// index k. The executable `app` has 1 + number mod 1000 lines that call, and needs all libraries. Tables have twelve
/// slots. The plan has quantum 1 + number mod 50 and processes `p0` to `p7` of `app`, with limit 100,000, stack 64 and, for
/// process i, the argument (number + i) mod 100. All of it is within the limits of plans.
#[tactic(auto, unfolding(crate::specs::Generated::generated))]
pub fn plan_of(alloc: Global, number: u32) -> Result<Generated, AllocError>
    requires { number ≤ 999999 }
    ensures made { IfOk result (λ made. made ≡ generated number) }
    ensures within { IfOk result IsWithin }
{
    Ok(Generated {
        sources: sources_of(alloc, number)?,
        links: links_of(alloc)?,
        plan: run_plan_of(alloc, number)?,
    })
}
