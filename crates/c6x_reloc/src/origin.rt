/// What a kind's value is taken from, with the letters of `Inputs`.
#[derive(Clone, Copy, Debug, PartialEq, Eq)]
pub enum Origin {
    /// The kind changes nothing.
    Nothing,
    /// S + A.
    Absolute,
    /// S + A, less the address of the fetch packet of P.
    Packet,
    /// S + A - B.
    Table,
    /// The address of the symbol's GOT word, less B.
    Got,
    /// The module's index; the addend is not used.
    Index,
    /// S; the addend is not used.
    Slot,
}
