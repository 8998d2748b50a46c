/// A kind of functional unit; each side has one of each.
#[derive(Clone, Copy, Debug, PartialEq, Eq)]
pub enum UnitKind {
    L,
    S,
    D,
    M,
}
