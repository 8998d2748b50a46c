use crate::cond::Cond;

/// What every word has: its condition and its p bit.
#[derive(Clone, Copy, Debug)]
pub struct Head {
    pub condition: Cond,
    pub chained: bool,
}
