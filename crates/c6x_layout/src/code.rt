/// Where the sections and the stubs of a text end.
#[derive(Clone, Copy, Debug)]
pub struct Code {
    /// The end behind the sections.
    pub sections: u64,
    /// The first stub; 0 where there is none.
    pub stubs: u64,
    /// The end behind the stubs.
    pub end: u64,
}
