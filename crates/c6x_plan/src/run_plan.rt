use crate::module_plan::ModulePlan;
use crate::process_plan::ProcessPlan;
use c6x_base::Row;

/// What a plan says: the processes of a run, and the modules that they are made of.
#[derive(Debug, Drop)]
pub struct RunPlan {
    /// The greatest number of cycles of one turn, 1 to 65,535.
    pub quantum: u32,
    /// The modules, with distinct names, at most 32.
    pub modules: Row<ModulePlan>,
    /// The processes, with distinct names, at least one and at most 16.
    pub processes: Row<ProcessPlan>,
}
