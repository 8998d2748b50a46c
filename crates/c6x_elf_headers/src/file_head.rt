/// The file header's fields that say what the file has (gABI chapter 4, "ELF Header").
#[derive(Clone, Copy, Debug)]
pub struct FileHead {
    /// `e_type`.
    pub kind: u16,
    /// `e_entry`.
    pub entry: u32,
    /// `e_phoff`: where the program headers begin.
    pub segments_at: u32,
    /// `e_shoff`: where the section headers begin.
    pub sections_at: u32,
    /// `e_flags`.
    pub flags: u32,
    /// `e_phnum`.
    pub segment_count: u16,
    /// `e_shnum`.
    pub section_count: u16,
    /// `e_shstrndx`: the section with the sections' names.
    pub names: u16,
}
