use crate::target::Target;
use c6x_base::Row;

/// The modules that a process is made of, and what their fields stand for.
#[derive(Debug, Drop)]
pub struct BoundProcess {
    /// Its search list: numbers of modules.
    pub modules: Row<u32>,
    /// For each module of the list what each of its fields stands for, in the order of the fields.
    pub targets: Row<Row<Target>>,
}
