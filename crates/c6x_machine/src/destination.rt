/// A write, by the cycle at which it lands and the place of its register.
#[derive(Clone, Copy, Debug, PartialEq, Eq)]
pub struct Destination {
    pub at: u32,
    pub register: u8,
}
