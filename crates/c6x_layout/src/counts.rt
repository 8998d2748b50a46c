/// How much a linked module's text holds.
#[derive(Clone, Copy, Debug, PartialEq, Eq)]
pub struct Counts {
    /// The bytes of its sections and stubs, from its start on.
    pub code: u64,
    /// The dynamic symbols, the null symbol and those of the two segments among them.
    pub symbols: u64,
    /// The bytes of the string table.
    pub strings: u64,
    /// The relocation entries of DT_RELA.
    pub relas: u64,
    /// The relocation entries of DT_JMPREL.
    pub jumps: u64,
    /// The dynamic entries that name a module: those of DT_NEEDED, and the one of DT_SONAME.
    pub named: u64,
}
