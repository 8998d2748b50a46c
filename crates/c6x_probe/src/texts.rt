use std::alloc::{AllocError, Global};

/// The first word of a line, and what stands behind the space behind it.
pub fn first_word(line: &str) -> (&str, &str) {
    line.split_once(' ').unwrap_or((line, ""))
}

/// A decimal number; 0 where the word is none.
pub fn number_of(word: &str) -> u32 {
    u32::from_str_radix(word, 10).unwrap_or(0)
}

/// A hexadecimal number; 0 where the word is none.
pub fn address_of(word: &str) -> u32 {
    u32::from_str_radix(word, 16).unwrap_or(0)
}

/// The decimal numbers of a list with commas.
pub fn numbers_of(alloc: Global, list: &str) -> Result<Vec<u32>, AllocError> {
    let mut numbers = Vec::new(alloc);
    for word in list.split(',') {
        numbers.push(number_of(word))?;
    }
    Ok(numbers)
}

/// The bytes of hexadecimal words, lowest byte first.
pub fn bytes_of_words(alloc: Global, words: &str) -> Result<Vec<u8>, AllocError> {
    let mut bytes = Vec::new(alloc);
    for word in words.split_whitespace() {
        bytes.extend_from_slice(&address_of(word).to_le_bytes())?;
    }
    Ok(bytes)
}
