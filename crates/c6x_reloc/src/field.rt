use crate::reloc_kind::RelocKind;

/// A value that is set in a relocation's field.
#[derive(Clone, Copy, Debug)]
pub struct Field {
    /// The place of the number in which the field stands.
    pub place: u32,
    pub kind: RelocKind,
    pub value: u32,
}
