//! The limits of a linked module. They are this project's own.

/// The address where its text begins.
pub const TEXT_START: u32 = 0x0001_0000;

/// The most bytes of its text, and of its data, in memory.
pub const MOST_SEGMENT_BYTES: u32 = 1_048_576;

/// The greatest alignment of a section or a common.
pub const MOST_ALIGN: u32 = 4_096;
