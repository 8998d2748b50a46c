use crate::seat::Seat;
use c6x_base::Row;

/// Where the ranges of the processes of a plan begin.
#[derive(Debug, Drop)]
pub struct Placement {
    /// For each module of the plan its text, where some process uses it.
    pub texts: Row<Option<u32>>,
    /// For each process its data ranges and its stack.
    pub seats: Row<Seat>,
}
