//! Limits of turns. They are this project's own.

/// The most cycles of one turn.
pub const MOST_QUANTUM: u32 = 65_535;

/// The most processes that take turns.
pub const MOST_PROCESSES: u32 = 65_535;

/// The numbers of processes are below this one.
pub const NUMBERS: u32 = 65_536;
