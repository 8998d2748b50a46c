/// A number with its sign; its size is None where it is above 4,294,967,295.
#[derive(Clone, Copy)]
pub struct Number {
    pub negative: bool,
    pub size: Option<u32>,
}
