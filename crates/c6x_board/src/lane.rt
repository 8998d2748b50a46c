ghost use Rattle.std.specs.Prelude.{◌≡◌, ◌∷◌, [], ℕ, ◌-◌, ◌≤◌, true, false};
ghost use Rattle.std.specs.Int.{to_le_bytes, w16, w32};
ghost use Rattle.c6x_spec.specs.Memory.{IsOnMemory, byte_in};
ghost use Rattle.c6x_spec.specs.Numbers.{half_at, word_at};
ghost use Rattle.c6x_access.specs.Rights.{may_access};
ghost use Rattle.c6x_access.specs.declared.right.Right.TheVariants.{Write};
ghost use Rattle.c6x_board.specs.Lane.{MayLook};
ghost use Rattle.c6x_board.specs.Written.{IsWritten};

use crate::board::Board;
use c6x_access::{Map, Right};

/// A board that is lent with the areas of a process: nothing else of it is read or written through the lane.
///
/// The board's bytes are at its end those that the lane left.
#[derive(Drop)]
pub struct Lane<'a> {
    pub board: &'a mut Board,
    pub map: &'a Map,
}

impl<'a> Lane<'a> {
    /// Whether an access may be made.
    pub fn allows(&self, at: u32, len: u32, right: Right) -> bool
        ensures { result ≡ may_access self.now.map.now right at len }
    {
        self.map.allows(at, len, right)
    }

    /// The byte at this address.
    pub fn read8(&self, at: u32) -> u8
        requires on { IsOnMemory self.now.board.now at 1 }
        requires may { MayLook self.now.map.now at 1 }
        ensures { result ≡ byte_in self.now.board.now at }
    {
        self.board.read8(at)
    }

    /// The number of the two bytes from this address on.
    pub fn read16(&self, at: u32) -> u16
        requires on { IsOnMemory self.now.board.now at 2 }
        requires may { MayLook self.now.map.now at 2 }
        ensures { result ≡ half_at false self.now.board.now.bytes (at - self.now.board.now.base) }
    {
        self.board.read16(at)
    }

    /// The number of the four bytes from this address on.
    pub fn read32(&self, at: u32) -> u32
        requires on { IsOnMemory self.now.board.now at 4 }
        requires may { MayLook self.now.map.now at 4 }
        ensures { result ≡ word_at false self.now.board.now.bytes (at - self.now.board.now.base) }
    {
        self.board.read32(at)
    }

    /// Writes one byte.
    pub fn write8(&mut self, at: u32, value: u8)
        requires on { IsOnMemory self.old.board.now at 1 }
        requires may { may_access self.old.map.now Write at 1 ≡ true }
        ensures same_board { self.new.board.ghost_name ≡ self.old.board.ghost_name }
        ensures same_map { self.new.map.now ≡ self.old.map.now }
        ensures changes { IsWritten self.old.board.now at (value ∷ []) self.new.board.now }
    {
        self.board.write8(at, value);
    }

    /// Writes the two bytes of a number, lowest first.
    pub fn write16(&mut self, at: u32, value: u16)
        requires on { IsOnMemory self.old.board.now at 2 }
        requires may { may_access self.old.map.now Write at 2 ≡ true }
        ensures same_board { self.new.board.ghost_name ≡ self.old.board.ghost_name }
        ensures same_map { self.new.map.now ≡ self.old.map.now }
        ensures changes { IsWritten self.old.board.now at (to_le_bytes w16 value) self.new.board.now }
    {
        self.board.write16(at, value);
    }

    /// Writes the four bytes of a number, lowest first.
    pub fn write32(&mut self, at: u32, value: u32)
        requires on { IsOnMemory self.old.board.now at 4 }
        requires may { may_access self.old.map.now Write at 4 ≡ true }
        ensures same_board { self.new.board.ghost_name ≡ self.old.board.ghost_name }
        ensures same_map { self.new.map.now ≡ self.old.map.now }
        ensures changes { IsWritten self.old.board.now at (to_le_bytes w32 value) self.new.board.now }
    {
        self.board.write32(at, value);
    }
}
