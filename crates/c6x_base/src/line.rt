ghost use Rattle.std.specs.Prelude.{◌≡◌, ℕ, ◌+◌, ◌≤◌, List, [], ◌++◌, length};

use std::marker::Model;

/// A text of at most 256 bytes, held without memory of its own.
#[derive(Debug, Drop)]
pub struct Line {
    buffer: [u8; 256],
    len: usize,
}

impl Model for Line {
    ghost use Rattle.std.specs.Prelude.{ℕ, ◌≤◌, List, take};

    ghost Value = { List ℕ };

    ghost view = { λ l. take l.len l.buffer };

    ghost invariant = { λ l. l.len ≤ 256 };
}

impl Line {
    /// The empty line.
    pub fn new() -> Line
        ensures { result ≡ [] }
    {
        Line {
            buffer: [0; 256],
            len: 0,
        }
    }

    /// Puts the bytes last.
    pub fn push(&mut self, bytes: &[u8])
        requires { length self.old + length bytes.now ≤ 256 }
        ensures { self.new ≡ self.old ++ bytes.now }
    {
        for byte in bytes {
            self.buffer[self.len] = *byte;
            self.len += 1;
        }
    }

    /// The bytes pushed so far.
    pub fn as_bytes(&self) -> &[u8]
        ensures { result.now ≡ self.now }
    {
        &self.buffer[..self.len]
    }
}
