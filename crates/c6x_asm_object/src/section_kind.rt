/// What a section holds, by its name.
#[derive(Clone, Copy)]
pub enum SectionKind {
    /// Code.
    Text,
    /// Data that is not written.
    Constant,
    /// Data that is zero and has no bytes in the file.
    Zero,
    /// Data.
    Data,
}
