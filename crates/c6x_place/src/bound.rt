use crate::bound_process::BoundProcess;
use c6x_base::Row;

/// The processes of a plan, bound, in the order of the plan.
#[derive(Debug, Drop)]
pub struct Bound {
    pub processes: Row<BoundProcess>,
}
