/// Where a definition lies.
#[derive(Clone, Copy, Debug, PartialEq, Eq)]
pub enum Region {
    /// In the text segment.
    Text,
    /// In the data segment.
    Data,
    /// In neither: the symbol is absolute.
    Absolute,
    /// In another module.
    Import,
}
