use c6x_base::Side;

/// A write of a register, which is read from `delay + 1` cycles later on.
#[derive(Clone, Copy, Debug, PartialEq, Eq)]
pub struct Write {
    pub side: Side,
    pub register: u8,
    pub value: u32,
    pub delay: u8,
}
