use c6x_base::Side;

/// A register: A0 to A31 or B0 to B31.
#[derive(Clone, Copy)]
pub struct Register {
    pub side: Side,
    pub number: u8,
}
