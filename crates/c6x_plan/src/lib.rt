//! Texts that say what to do (this project's own): the plan of a run, and of a link.
//!
//! The linker stands on [`LinkPlan`], the loader on [`ModulePlan`] and [`ProcessPlan`].
#![tactic(auto)]

mod first;
pub mod limits;
mod lines;
mod link;
mod link_draft;
mod link_line;
mod link_plan;
mod module_plan;
mod number;
mod plan_error;
mod process_plan;
mod run;
mod run_draft;
mod run_line;
mod run_plan;
mod sizes;
mod slots;
mod text_line;
mod word;

pub use link::read_link_plan;
pub use link_plan::LinkPlan;
pub use module_plan::ModulePlan;
pub use number::number_in;
pub use plan_error::PlanError;
pub use process_plan::ProcessPlan;
pub use run::read_plan;
pub use run_plan::RunPlan;
