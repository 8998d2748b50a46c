use c6x_base::Bytes;

/// A segment: a program header and the file's bytes that it names (gABI chapter 5, "Program Header").
#[derive(Debug, Drop)]
pub struct Segment {
    /// `p_type`: 1 is LOAD, 2 is DYNAMIC.
    pub kind: u32,
    /// `p_vaddr`: the address of its first byte.
    pub vaddr: u32,
    /// `p_memsz`: its length in memory, in bytes.
    pub memsz: u32,
    /// `p_flags`: 1 may run, 2 may be written, 4 may be read.
    pub flags: u32,
    /// `p_align`: 0 and 1 ask for no alignment.
    pub align: u32,
    /// The `p_filesz` bytes at `p_offset`.
    pub bytes: Bytes,
}
