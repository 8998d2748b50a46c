ghost use Rattle.std.specs.Prelude.{◌≡◌, ◌≤◌, All, IfOk, length};
ghost use Rattle.c6x_place.specs.Binding.{Passes};
ghost use Rattle.c6x_place.specs.Plans.{IsKnown, bound_plans, plans_refusal};

use crate::bind_error::BindError;
use crate::bound::Bound;
use crate::needs::needs_of;
use crate::process::bind_process;
use c6x_base::Row;
use c6x_modules::Modules;
use c6x_plan::ProcessPlan;
use c6x_plan::limits::MOST_PROCESSES;
use std::alloc::Global;

/// The search list of each process and what each of its fields stands for, or the first broken of L12 to L17, L19 and
/// L20, by process and then in their order.
#[tactic(auto, using(crate::proofs::Walks::plans_more))]
pub fn bind(alloc: Global, modules: &Modules, processes: &[ProcessPlan]) -> Result<Bound, BindError>
    requires known { All (IsKnown modules.now) processes.now }
    requires few { length processes.now ≤ MOST_PROCESSES }
    ensures passes { Passes result (plans_refusal modules.now 0 processes.now) }
    ensures value { IfOk result (λ bound. bound.processes ≡ bound_plans modules.now processes.now) }
{
    let _ = modules.len();
    let needs = needs_of(alloc, modules)?;
    let mut bound = Vec::new(alloc);
    for (process, plan) in processes.iter().enumerate() {
        let name = plan.name.as_bytes();
        bound.push(bind_process(alloc, modules, &needs, process as u32, name, plan.module)?)?;
    }
    Ok(Bound {
        processes: Row::of(bound),
    })
}
