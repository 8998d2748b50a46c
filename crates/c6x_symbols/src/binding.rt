/// What a name is bound to. Objects are numbered in the plan's order, symbols as in their object's table.
#[derive(Clone, Copy, Debug, PartialEq, Eq)]
pub enum Binding {
    /// The one definition by a GLOBAL symbol.
    Strong { object: u32, symbol: u32 },
    /// The first definition by a WEAK symbol.
    Weak { object: u32, symbol: u32 },
    /// Zeros of this size, which the linker places.
    Common { size: u32, align: u32, near: bool },
    /// A definition of another module; it may be missing at load where the import is weak.
    Import { weak: bool },
    /// The module's table.
    Table,
}
