use c6x_elf::{Rela, Symbol};

/// The entries of a module's tables. Their names stand in the strings.
#[derive(Debug, Drop)]
pub struct EntryRows {
    /// The dynamic symbols, the null symbol first.
    pub symbols: Vec<Symbol>,
    /// The relocation entries of RELA.
    pub relas: Vec<Rela>,
    /// Those of JMPREL that are not RELA's too.
    pub jumps: Vec<Rela>,
}
