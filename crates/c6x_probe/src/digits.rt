use std::alloc::{AllocError, Global};

/// The bytes that pairs of hexadecimal digits spell, up to the first other byte.
pub fn bytes_of(alloc: Global, text: &[u8]) -> Result<Vec<u8>, AllocError> {
    let mut bytes = Vec::new(alloc);
    let mut high: Option<u8> = None;
    for byte in text {
        let Some(digit) = digit_of(*byte) else {
            return Ok(bytes);
        };
        match high {
            None => high = Some(digit),
            Some(first) => {
                bytes.push((first << 4) | digit)?;
                high = None;
            }
        }
    }
    Ok(bytes)
}

/// The value of a hexadecimal digit.
fn digit_of(byte: u8) -> Option<u8> {
    match byte {
        b'0'..=b'9' => Some(byte - b'0'),
        b'a'..=b'f' => Some(byte - b'a' + 10),
        _ => None,
    }
}
