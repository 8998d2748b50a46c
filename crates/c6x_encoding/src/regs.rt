ghost use Rattle.std.specs.Prelude.{◌≡◌, ℕ, ◌+◌, ◌<◌, List, length, replicate, slice_set};
ghost use Rattle.c6x_encoding.specs.Registers.{place_of, register_of};

use c6x_base::Side;
use std::marker::Model;

/// The values of the 64 registers.
#[derive(Debug, Drop)]
pub struct Regs {
    values: [u32; 64],
}

/// Seen as a list: A0 to A31, then B0 to B31.
impl Model for Regs {
    ghost use Rattle.std.specs.Prelude.{ℕ, ◌≡◌, List, length};

    ghost Value = { List ℕ };

    ghost view = { λ r. r.values };

    ghost invariant = { λ r. length r.values ≡ 64 };
}

impl Regs {
    /// All registers zero.
    pub fn zero() -> Regs
        ensures { result ≡ replicate 64 0 }
    {
        Regs { values: [0; 64] }
    }

    /// The value of a register.
    pub fn get(&self, side: Side, number: u8) -> u32
        requires { number < 32 }
        ensures { result ≡ register_of self.now side number }
    {
        self.values[place(side, number)]
    }

    /// Changes one register.
    pub fn set(&mut self, side: Side, number: u8, value: u32)
        requires { number < 32 }
        ensures { self.new ≡ slice_set self.old (place_of side number) value }
    {
        self.values[place(side, number)] = value;
    }
}

/// Where a register stands among the 64.
fn place(side: Side, number: u8) -> usize
    requires { number < 32 }
    ensures here { result ≡ place_of side number }
    ensures inside { result < 64 }
{
    match side {
        Side::A => usize::from(number),
        Side::B => usize::from(number) + 32,
    }
}
