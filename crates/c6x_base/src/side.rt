/// One of the two sides of the processor, each with its registers and units (SPRU732, chapter 2).
#[derive(Clone, Copy, Debug, PartialEq, Eq)]
pub enum Side {
    A,
    B,
}
