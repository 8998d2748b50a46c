ghost use Rattle.std.specs.Prelude.{◌≡◌, ℕ, ◌-◌, ◌≤◌, [], ◌∷◌, length, IfOk, replicate, false};
ghost use Rattle.std.specs.Int.{to_le_bytes, w16, w32};
ghost use Rattle.c6x_spec.specs.Memory.{Memory, CanStart, IsOnMemory, written, byte_in};
ghost use Rattle.c6x_board.specs.Lane.{LieOn};
ghost use Rattle.c6x_board.specs.Written.{IsWritten};
ghost use Rattle.c6x_spec.specs.Numbers.{half_at, word_at};

use crate::lane::Lane;
use crate::splices::{byte_held, clear_held, half_held, put_at, reach, word_held};
use c6x_access::Map;
use std::alloc::{AllocError, Global};
use std::marker::Model;

/// The memory: a base address and the bytes from it on.
///
/// Numbers in it are little-endian: the first byte is worth least. Each write has two clauses that say the same, `after`
/// as one equation and `changes` address by address: its own bytes change and no others.
#[derive(Debug, Drop)]
pub struct Board {
    base: u32,
    len: u32,
    bytes: Vec<u8>,
}

impl Model for Board {
    ghost use Rattle.std.specs.Prelude.{◌++◌, ◌-◌, ◌≤◌, replicate, vec_len, vec_capacity};
    ghost use Rattle.c6x_spec.specs.Memory.{Memory, CanStart};

    ghost Value = { Memory };

    // The bytes behind those held are zeros that no write has reached yet.
    ghost view = { λ b. record { base = b.base; bytes = b.bytes.items ++ replicate (b.len - vec_len b.bytes) 0 } };

    // The room for all bytes is reserved, so that no write allocates.
    ghost invariant = { λ b. CanStart b.base b.len × (vec_len b.bytes ≤ b.len) × (b.len ≤ vec_capacity b.bytes) };
}

impl Board {
    /// `len` zero bytes from the address `base` on.
    pub fn new(alloc: Global, base: u32, len: u32) -> Result<Board, AllocError>
        requires { CanStart base len }
        ensures { IfOk result (λ board. board ≡ record { base = base; bytes = replicate len 0 }) }
    {
        let bytes = Vec::with_capacity(alloc, len as usize)?;
        Ok(Board { base, len, bytes })
    }

    /// The address of the first byte.
    pub fn base(&self) -> u32
        ensures { result ≡ self.now.base }
    {
        self.base
    }

    /// The number of bytes. What every board keeps of its base and length is told here.
    pub fn len(&self) -> u32
        ensures value { result ≡ length self.now.bytes }
        ensures whole { CanStart self.now.base (length self.now.bytes) }
    {
        self.len
    }

    /// The byte at this address.
    pub fn read8(&self, at: u32) -> u8
        requires { IsOnMemory self.now at 1 }
        ensures { result ≡ byte_in self.now at }
    {
        byte_held(&self.bytes, self.place(at))
    }

    /// The number of the two bytes from this address on.
    pub fn read16(&self, at: u32) -> u16
        requires { IsOnMemory self.now at 2 }
        ensures { result ≡ half_at false self.now.bytes (at - self.now.base) }
    {
        half_held(&self.bytes, self.place(at))
    }

    /// The number of the four bytes from this address on.
    pub fn read32(&self, at: u32) -> u32
        requires { IsOnMemory self.now at 4 }
        ensures { result ≡ word_at false self.now.bytes (at - self.now.base) }
    {
        word_held(&self.bytes, self.place(at))
    }

    /// Writes one byte.
    pub fn write8(&mut self, at: u32, value: u8)
        requires { IsOnMemory self.old at 1 }
        ensures after { self.new ≡ written self.old at (value ∷ []) }
        ensures changes { IsWritten self.old at (value ∷ []) self.new }
    {
        self.copy_in(at, &[value]);
    }

    /// Writes the two bytes of a number, lowest first.
    pub fn write16(&mut self, at: u32, value: u16)
        requires { IsOnMemory self.old at 2 }
        ensures after { self.new ≡ written self.old at (to_le_bytes w16 value) }
        ensures changes { IsWritten self.old at (to_le_bytes w16 value) self.new }
    {
        self.copy_in(at, &value.to_le_bytes());
    }

    /// Writes the four bytes of a number, lowest first.
    pub fn write32(&mut self, at: u32, value: u32)
        requires { IsOnMemory self.old at 4 }
        ensures after { self.new ≡ written self.old at (to_le_bytes w32 value) }
        ensures changes { IsWritten self.old at (to_le_bytes w32 value) self.new }
    {
        self.copy_in(at, &value.to_le_bytes());
    }

    /// Writes these bytes.
    pub fn copy_in(&mut self, at: u32, bytes: &[u8])
        requires { IsOnMemory self.old at (length bytes.now) }
        ensures after { self.new ≡ written self.old at bytes.now }
        ensures changes { IsWritten self.old at bytes.now self.new }
    {
        let from = self.place(at);
        reach(&mut self.bytes, from + bytes.len());
        put_at(&mut self.bytes, from, bytes);
    }

    /// Writes `len` zero bytes.
    pub fn zero(&mut self, at: u32, len: u32)
        requires { IsOnMemory self.old at len }
        ensures after { self.new ≡ written self.old at (replicate len 0) }
        ensures changes { IsWritten self.old at (replicate len 0) self.new }
    {
        let from = self.place(at);
        clear_held(&mut self.bytes, from, len as usize);
    }

    /// The lane of this board and of these areas, which lie on it.
    pub fn lend<'a>(&'a mut self, map: &'a Map) -> Lane<'a>
        requires { LieOn self.old map.now }
        ensures same_board { result.board.ghost_name ≡ self.entry.ghost_name }
        ensures board { result.board.now ≡ self.old }
        ensures map { result.map.now ≡ map.now }
    {
        Lane { board: self, map }
    }

    /// The position of an address among the bytes.
    fn place(&self, at: u32) -> usize
        requires { self.now.base ≤ at }
        ensures { result ≡ at - self.now.base }
    {
        (at - self.base) as usize
    }
}
