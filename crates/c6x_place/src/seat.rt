use c6x_base::Row;

/// Where the ranges of one process begin.
#[derive(Debug, Drop)]
pub struct Seat {
    /// The data ranges of the modules of its search list, in their order.
    pub bases: Row<u32>,
    /// Its stack.
    pub stack: u32,
}
