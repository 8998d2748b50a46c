//! Limits of what is bound. They are this project's own.

/// The most fields of the modules of a process together.
pub const MOST_FIELDS: u64 = 65_536;
