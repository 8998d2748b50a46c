use crate::instr_word::InstrWord;
use crate::reloc_entry::RelocEntry;
use crate::section_kind::SectionKind;
use c6x_base::Row;

/// A section as the lines so far make it.
#[derive(Drop)]
pub struct AsmSection {
    /// The offset of its name in the text.
    pub at: u32,
    /// The length of its name.
    pub len: u32,
    pub kind: SectionKind,
    pub align: u32,
    pub size: u32,
    /// Its bytes; none for a section of zeros.
    pub bytes: Row<u8>,
    pub entries: Row<RelocEntry>,
    pub instructions: Row<InstrWord>,
    /// Where its last instruction ends.
    pub last: Option<u32>,
}
