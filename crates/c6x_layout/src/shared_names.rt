/// How many names there are, and the bytes of their strings with the zero byte behind each.
#[derive(Clone, Copy, Debug)]
pub struct SharedNames {
    pub count: u64,
    pub bytes: u64,
}
