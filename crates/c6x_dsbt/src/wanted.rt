/// What the symbol of a relocation entry stands for, which is what has a word in the table.
#[derive(Clone, Copy, Debug, PartialEq, Eq, Hash)]
pub enum Wanted {
    /// The name with this number among the bindings.
    Bound(u32),
    /// A LOCAL symbol, by its object's number and its own; also symbol 0 of an object.
    Local { object: u32, symbol: u32 },
}
