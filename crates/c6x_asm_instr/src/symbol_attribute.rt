/// What a directive says of a symbol.
#[derive(Clone, Copy)]
pub enum SymbolAttribute {
    Global,
    Weak,
    Hidden,
}
