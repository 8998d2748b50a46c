/// The number of an object, and that of one of its sections.
#[derive(Clone, Copy, Debug, PartialEq, Eq, Hash)]
pub struct SectionKey {
    pub object: u32,
    pub section: u32,
}
