use c6x_base::Bytes;

/// A section: a section header and the file's bytes that it names (gABI chapter 4, "Sections").
#[derive(Debug, Drop)]
pub struct Section {
    /// `sh_name`: the name's offset in the table of the sections' names.
    pub name: u32,
    /// `sh_type`.
    pub kind: u32,
    /// `sh_flags`: 1 may be written, 2 has memory, 4 may run.
    pub flags: u32,
    /// `sh_addr`.
    pub addr: u32,
    /// `sh_size`: the length in bytes.
    pub size: u32,
    /// `sh_link`: the number of the section that this one goes with.
    pub link: u32,
    /// `sh_info`: for a relocation table the number of the section that it changes.
    pub info: u32,
    /// `sh_addralign`: 0 and 1 ask for no alignment.
    pub align: u32,
    /// `sh_entsize`: the length of an entry, for a table of entries.
    pub entsize: u32,
    /// The `sh_size` bytes at `sh_offset`, and none for the types NULL and NOBITS.
    pub bytes: Bytes,
}
