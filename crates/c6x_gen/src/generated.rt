use c6x_base::{Bytes, Row};
use c6x_plan::{LinkPlan, RunPlan};

/// Modules as texts, how they are linked, and how they are run.
#[derive(Debug, Drop)]
pub struct Generated {
    /// The source of each module, in the order of the plan's modules.
    pub sources: Row<Bytes>,
    /// How the object of each source is linked, in the same order.
    pub links: Row<LinkPlan>,
    /// The plan of the run.
    pub plan: RunPlan,
}
