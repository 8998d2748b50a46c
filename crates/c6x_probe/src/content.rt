use crate::digits::bytes_of;
use crate::texts::{bytes_of_words, first_word, number_of};
use std::alloc::{AllocError, Global};

/// The bytes of the next file, to which lines add and in which they change.
#[derive(Drop)]
pub struct Content {
    pub bytes: Vec<u8>,
}

impl Content {
    /// No bytes.
    pub fn new(alloc: Global) -> Content {
        Content {
            bytes: Vec::new(alloc),
        }
    }

    /// Does what a line says, and tells whether it says something of a content.
    pub fn reads(&mut self, alloc: Global, line: &str) -> Result<bool, AllocError> {
        let (verb, rest) = first_word(line);
        let (first, behind) = first_word(rest);
        match verb {
            "|" => self.push_times(rest, 1)?,
            "+" => self.bytes.extend_from_slice(rest.as_bytes())?,
            "hex" => self
                .bytes
                .extend_from_slice(&bytes_of(alloc, rest.as_bytes())?)?,
            "words" => self.bytes.extend_from_slice(&bytes_of_words(alloc, rest)?)?,
            "times" => self.push_times(behind, number_of(first))?,
            "number" => self.push_numbered(behind, number_of(first))?,
            "many" => self.push_many(alloc, behind, number_of(first))?,
            "swap" => self.swap(alloc, rest)?,
            "set" => self.set(
                number_of(first) as usize,
                &bytes_of(alloc, behind.as_bytes())?,
            ),
            "cut" => self.bytes.truncate(number_of(first) as usize),
            "" | "#" => {}
            _ => return Ok(false),
        }
        Ok(true)
    }

    /// Appends a line so many times.
    fn push_times(&mut self, text: &str, count: u32) -> Result<(), AllocError> {
        for _ in 0..count {
            self.bytes.extend_from_slice(text.as_bytes())?;
            self.bytes.push(b'\n')?;
        }
        Ok(())
    }

    /// Appends a text once for each number below `count`.
    fn push_numbered(&mut self, text: &str, count: u32) -> Result<(), AllocError> {
        for number in 0..count {
            self.push_with_number(text, number)?;
        }
        Ok(())
    }

    /// Appends a text, with the number in four digits for each `%` and the end of a line for each `&`.
    fn push_with_number(&mut self, text: &str, number: u32) -> Result<(), AllocError> {
        for byte in text.as_bytes() {
            match byte {
                b'%' => self.bytes.extend_from_slice(&four_digits(number))?,
                b'&' => self.bytes.push(b'\n')?,
                other => self.bytes.push(*other)?,
            }
        }
        Ok(())
    }

    /// Appends so many of a byte.
    fn push_many(&mut self, alloc: Global, byte: &str, count: u32) -> Result<(), AllocError> {
        let byte = bytes_of(alloc, byte.as_bytes())?
            .first()
            .copied()
            .unwrap_or(0);
        self.bytes
            .extend_from_slice(&vec![in alloc; byte; count as usize]?)
    }

    /// Replaces words where they first stand, by those behind the colon.
    fn swap(&mut self, alloc: Global, words: &str) -> Result<(), AllocError> {
        let (old, new) = words.split_once(" : ").unwrap_or((words, ""));
        let old = bytes_of_words(alloc, old)?;
        if let Some(at) = place_of(&self.bytes, &old) {
            self.set(at, &bytes_of_words(alloc, new)?);
        }
        Ok(())
    }

    /// Puts these bytes from a place on, as far as the content goes.
    fn set(&mut self, place: usize, new: &[u8]) {
        for (old, byte) in self.bytes.iter_mut().skip(place).zip(new) {
            *old = *byte;
        }
    }
}

/// Where bytes first stand in others.
fn place_of(bytes: &[u8], wanted: &[u8]) -> Option<usize> {
    (0..bytes.len()).find(|at| bytes[*at..].starts_with(wanted))
}

/// The last four decimal digits of a number.
fn four_digits(number: u32) -> [u8; 4] {
    [
        b'0' + (number / 1_000 % 10) as u8,
        b'0' + (number / 100 % 10) as u8,
        b'0' + (number / 10 % 10) as u8,
        b'0' + (number % 10) as u8,
    ]
}
