/// A rule that two instructions of a packet can break together.
#[derive(Clone, Copy, Debug)]
pub enum PairRule {
    /// Two use one unit.
    Unit,
    /// Two load or store values of one side.
    Side,
    /// Two of one side read different registers of the other.
    Cross,
}
