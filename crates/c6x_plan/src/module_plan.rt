use c6x_base::Name;

/// A module of a plan.
#[derive(Debug, Drop)]
pub struct ModulePlan {
    /// The name that processes and other modules know it by.
    pub name: Name,
    /// The name of its file.
    pub file: Name,
}
