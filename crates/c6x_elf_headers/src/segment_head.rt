/// A program header with its own place in the file (gABI chapter 5, "Program Header").
#[derive(Clone, Copy, Debug)]
pub struct SegmentHead {
    /// Where this header begins in the file.
    pub at: u32,
    /// `p_type`.
    pub kind: u32,
    /// `p_offset`: where the segment's bytes begin in the file.
    pub offset: u32,
    /// `p_vaddr`.
    pub vaddr: u32,
    /// `p_filesz`: how many bytes of the file are the segment's.
    pub filesz: u32,
    /// `p_memsz`.
    pub memsz: u32,
    /// `p_flags`.
    pub flags: u32,
    /// `p_align`.
    pub align: u32,
}
