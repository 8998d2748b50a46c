//! Limits of files and of names. They are this project's own; no format asks for them.

/// The most bytes of a file.
pub const MOST_FILE_BYTES: u32 = 4_194_304;

/// The most program headers of a file, and so segments.
pub const MOST_SEGMENTS: u16 = 64;

/// The most section headers of a file.
pub const MOST_SECTIONS: u16 = 4_096;

/// The most bytes of all segments and sections of a file together, and of one segment in memory.
pub const MOST_HELD_BYTES: u32 = 16_777_216;

/// The most bytes of the names of a module's symbols and of the modules that it needs together.
pub const MOST_NAMES_BYTES: u32 = 4_194_304;

/// The most bytes of a name in a plan or in an assembly text.
pub const MOST_NAME_BYTES: u32 = 64;
