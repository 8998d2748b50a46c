use c6x_base::Name;

/// A process of a plan.
#[derive(Debug, Drop)]
pub struct ProcessPlan {
    /// The process's name.
    pub name: Name,
    /// The number of its executable among the plan's modules, counted from 0.
    pub module: u32,
    /// The number of cycles after which it ends, 1 to 10,000,000.
    pub limit: u32,
    /// The size of its stack in bytes: 64 to 65,536, a multiple of 8.
    pub stack: u32,
    /// What it finds in register A4 at its start.
    pub arg: u32,
}
