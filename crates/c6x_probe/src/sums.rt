use std::io;
use std::io::Write;

/// Prints how many bytes there are, and their FNV-1a sum.
pub fn put_bytes<W: Write + Drop>(out: &mut W, bytes: &[u8]) -> io::Result<()> {
    let mut sum: u32 = 0x811C_9DC5;
    for byte in bytes {
        sum = (sum ^ u32::from(*byte)).wrapping_mul(0x0100_0193);
    }
    write!(out, " {} {sum:08x}", bytes.len())
}
