/// How an address goes from its base (SPRU732, "Addressing Modes").
#[derive(Clone, Copy)]
pub enum Mode {
    /// `*-R`
    Negative,
    /// `*+R`, and `*R`
    Positive,
    /// `*--R`
    PreDecrement,
    /// `*++R`
    PreIncrement,
    /// `*R--`
    PostDecrement,
    /// `*R++`
    PostIncrement,
}
