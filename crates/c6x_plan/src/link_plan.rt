use c6x_base::{Name, Row};

/// What a link plan says: what the linker makes, and of which objects.
#[derive(Debug, Drop)]
pub struct LinkPlan {
    /// The output is a shared object, and not an executable.
    pub library: bool,
    /// The module's DSBT index, any number.
    pub index: u32,
    /// The number of slots of its table that is asked for, any number.
    pub table: u32,
    /// The symbol where a process begins.
    pub entry: Option<Name>,
    /// The name that the module has for others, where it is told.
    pub soname: Option<Name>,
    /// The names of the modules that it needs, distinct, at most 32.
    pub needed: Row<Name>,
    /// The names of the objects' files, at least one and at most 256.
    pub objects: Row<Name>,
}
