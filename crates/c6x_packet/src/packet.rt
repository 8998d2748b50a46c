ghost use Rattle.std.specs.Prelude.{◌≡◌, ◌<◌, ◌≤◌, ℕ, length, slice_get, take, Some};

use c6x_isa::Instr;
use std::marker::Model;

/// An execute packet: one to eight instructions.
#[derive(Debug, Drop)]
pub struct Packet {
    instrs: [Instr; 8],
    count: usize,
}

/// Seen as the list of its instructions.
impl Model for Packet {
    ghost use Rattle.std.specs.Prelude.{◌≡◌, ◌≤◌, List, length, take};
    ghost use Rattle.c6x_encoding.specs.declared.instr.Instr.{Instr};

    ghost Value = { List Instr };

    ghost view = { λ p. take p.count p.instrs };

    ghost invariant = { λ p. (p.count ≤ 8) × (length p.instrs ≡ 8) };
}

impl Packet {
    /// The packet of the first `count` of these instructions.
    pub(crate) fn of(instrs: [Instr; 8], count: usize) -> Packet
        requires { count ≤ 8 }
        ensures { result ≡ take count instrs }
    {
        Packet { instrs, count }
    }

    /// How many instructions it has.
    pub fn len(&self) -> u32
        ensures count { result ≡ length self.now }
        ensures few { result ≤ 8 }
    {
        self.count as u32
    }

    /// The instruction at a position, counted from 0.
    pub fn get(&self, position: u32) -> Instr
        requires { position < length self.now }
        ensures { slice_get self.now position ≡ Some result }
    {
        self.instrs[position as usize]
    }

    /// The instructions.
    pub fn as_slice(&self) -> &[Instr]
        ensures { result.now ≡ self.now }
    {
        &self.instrs[..self.count]
    }
}
