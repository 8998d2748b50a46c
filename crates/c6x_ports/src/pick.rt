/// What a policy answers: a process by its number, and for how many cycles.
#[derive(Clone, Copy, Debug, PartialEq, Eq)]
pub struct Pick {
    pub process: u32,
    pub steps: u32,
}
