/// An entry of 8 bytes of the dynamic section (gABI, chapter 5, "Dynamic Section"): a tag, and the
/// number or address that it gives.
#[derive(Clone, Copy, Debug, PartialEq, Eq)]
pub struct Dyn {
    pub tag: u32,
    pub value: u32,
}
