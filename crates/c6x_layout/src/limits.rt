//! Numbers of a linked file's layout. They are this project's own.

/// The data begins at a multiple of this, at least as far behind the text.
pub const PAGE: u32 = 4_096;

/// The least alignment of the text.
pub const TEXT_ALIGN: u32 = 32;

/// The least alignment of the data.
pub const DATA_ALIGN: u32 = 8;

/// The alignment of the first stub: that of a fetch packet.
pub const STUB_ALIGN: u32 = 32;

/// The bytes of a stub.
pub const STUB_BYTES: u32 = 16;

/// The greatest number of a stub's word, counted from the table: 15 bits have it.
pub const MOST_STUB_WORD: u32 = 32_767;
