use c6x_modules::Modules;
use c6x_place::{Bound, Placement};
use c6x_plan::RunPlan;

/// A plan, its modules, what its processes are bound to, and where everything stands.
#[derive(Debug, Drop)]
pub struct Loading {
    pub plan: RunPlan,
    /// In the order of the plan.
    pub modules: Modules,
    pub bound: Bound,
    pub placement: Placement,
}
