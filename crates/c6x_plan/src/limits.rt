//! Limits of plans. They are this project's own.

/// The most objects of a link plan.
pub const MOST_OBJECTS: u32 = 256;

/// The most names of needed modules of a link plan.
pub const MOST_NEEDED: u32 = 32;

/// The most modules of a plan.
pub const MOST_MODULES: u32 = 32;

/// The most processes of a plan.
pub const MOST_PROCESSES: u32 = 16;

/// The most cycles of a process.
pub const MOST_CYCLES: u32 = 10_000_000;

/// The most cycles of one turn.
pub const MOST_QUANTUM: u32 = 65_535;

/// The cycles of one turn where a plan does not tell.
pub const QUANTUM: u32 = 100;

/// The least bytes of a process's stack.
pub const LEAST_STACK: u32 = 64;

/// The most bytes of a process's stack.
pub const MOST_STACK: u32 = 65_536;

/// The slots of a module's table where a link plan does not tell.
pub const TABLE: u32 = 64;

/// The most slots of a module's table.
pub const MOST_SLOTS: u32 = 1_024;
