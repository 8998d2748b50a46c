/// A section header with its own place in the file (gABI chapter 4, "Section Header").
#[derive(Clone, Copy, Debug)]
pub struct SectionHead {
    /// Where this header begins in the file.
    pub at: u32,
    /// `sh_name`: the name's offset in the table of the sections' names.
    pub name: u32,
    /// `sh_type`.
    pub kind: u32,
    /// `sh_flags`.
    pub flags: u32,
    /// `sh_addr`.
    pub addr: u32,
    /// `sh_offset`: where the section's bytes begin in the file.
    pub offset: u32,
    /// `sh_size`.
    pub size: u32,
    /// `sh_link`.
    pub link: u32,
    /// `sh_info`.
    pub info: u32,
    /// `sh_addralign`.
    pub align: u32,
    /// `sh_entsize`.
    pub entsize: u32,
}
