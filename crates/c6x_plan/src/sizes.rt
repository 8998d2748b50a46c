/// The numbers of a process line.
#[derive(Clone, Copy, Debug)]
pub struct Sizes {
    pub limit: u32,
    pub stack: u32,
    pub arg: u32,
}
