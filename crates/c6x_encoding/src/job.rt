use c6x_base::Side;

/// What a memory access does.
#[derive(Clone, Copy, Debug, PartialEq, Eq)]
pub enum Job {
    /// Puts the number, with its sign or with zeros before it, into a register.
    Load {
        signed: bool,
        side: Side,
        register: u8,
    },
    /// Puts the low bytes of the value into memory. The value is the whole register.
    Store {
        value: u32,
    },
}
