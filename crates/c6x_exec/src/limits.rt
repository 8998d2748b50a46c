/// How many bytes of output a process may put.
pub(crate) const MOST_OUTPUT: usize = 65_536;
