/// Where a symbol is: its section's number, its value and its size.
#[derive(Clone, Copy)]
pub struct Definition {
    pub section: usize,
    pub value: u32,
    pub size: u32,
}
