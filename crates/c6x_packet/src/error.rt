use thiserror::Error;

/// Why words are no packet.
#[derive(Clone, Copy, Debug, PartialEq, Eq, Error)]
pub enum PacketError {
    /// The word at this position spells no instruction.
    #[error("BadWord")]
    BadWord { place: u32 },
    /// The eighth word is chained to a ninth one.
    #[error("TooLong")]
    TooLong,
    /// Two instructions use one unit.
    #[error("UnitTwice")]
    UnitTwice,
    /// Two loads or stores have their values on one side.
    #[error("SameSide")]
    SameSide,
    /// Two instructions of a side read different registers through its cross path.
    #[error("CrossTwice")]
    CrossTwice,
}
