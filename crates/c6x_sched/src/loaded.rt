use c6x_exec::Process;

/// The processes of a plan, and an empty list of numbers with room for one of each process.
#[derive(Drop)]
pub struct Loaded {
    pub processes: Vec<Process>,
    pub ready: Vec<u32>,
}
