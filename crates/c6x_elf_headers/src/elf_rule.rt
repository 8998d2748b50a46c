/// A rule that the bytes of a file must keep, numbered E1 to E11 in this order.
#[derive(Clone, Copy, Debug, PartialEq, Eq)]
pub enum ElfRule {
    /// A field of the file header is cut, or a header, a segment or a section is not wholly in the
    /// file.
    Short,
    /// The first four bytes are not 0x7F, `E`, `L`, `F`.
    Magic,
    /// The class is not that of 32 bits.
    Class,
    /// The byte order is not little-endian.
    Data,
    /// A version is not the current one.
    Version,
    /// The machine is not the TI C6000.
    Machine,
    /// The file is no relocatable file, executable or shared object.
    FileType,
    /// Headers or entries have another size than theirs, or a table is no multiple of its entries.
    EntrySize,
    /// A number names a section, symbol or name that there is not.
    Index,
    /// No zero byte ends a name.
    NoNul,
    /// The file, or what it holds, is larger than a limit.
    Large,
}
