/// Where a section with memory lies in a linked file.
#[derive(Clone, Copy, Debug, PartialEq, Eq)]
pub enum Zone {
    /// With the code, in the segment that may be run.
    Text,
    /// In the data segment, in reach of the data page pointer (SPRAB89).
    Near,
    /// In the data segment, behind all that is near.
    Far,
}
