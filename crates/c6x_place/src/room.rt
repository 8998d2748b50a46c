/// What a range asks for: the address in its file to which its place is congruent modulo the step, and its size.
#[derive(Clone, Copy, Debug, PartialEq, Eq)]
pub struct Room {
    pub vaddr: u32,
    pub step: u32,
    pub size: u32,
}
