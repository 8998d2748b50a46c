/// What a field of a process stands for.
#[derive(Clone, Copy, Debug, PartialEq, Eq)]
pub enum Target {
    /// Nothing: the field has no symbol, or a weak one that no module defines.
    Zero,
    /// A value that stays where it is.
    Fixed(u32),
    /// The definition with this number in the module at this position of the search list. It moves with its segment.
    Inside { position: u32, symbol: u32 },
}
