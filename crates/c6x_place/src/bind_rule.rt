/// A rule that the modules of a process must keep, in the order in which they are looked at. L18 is the rule of
/// placement.
#[derive(Clone, Copy, Debug, PartialEq, Eq)]
pub enum BindRule {
    /// L12: the executable's index is not 0.
    ExecIndex,
    /// L16: a needed name is no module's.
    MissingModule,
    /// L13: another module's index is 0.
    UnassignedIndex,
    /// L14: two modules have one index.
    DuplicateIndex,
    /// L15: a table has no slot for an index.
    TableTooSmall,
    /// L17: a symbol is not found, and not weak.
    Unresolved,
    /// L19: a definition lies in no segment of its module.
    SymbolOutside,
    /// L20: a table has too many slots, or there are too many fields.
    Count,
}
