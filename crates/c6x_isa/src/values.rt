ghost use Rattle.std.specs.Prelude.{◌≡◌, ℕ, ◌+◌, ◌-◌, ◌<◌, ◌≤◌, ◌^◌};
ghost use Rattle.c6x_spec.specs.Fields.{extended_of};
ghost use Rattle.c6x_encoding.specs.Spelling.{bit_of};
ghost use Rattle.c6x_encoding.specs.Values.{constant_of, delay_of, difference_of, from_packet, is_unsigned, moved, product, signed_product, subtracted, sum_of, value_of};

use crate::shifts::{shift_left, shift_right, shift_signed};
use c6x_encoding::{Arith, MoveKind, UnitKind};

/// The value of an operation on two operands, of which `a` is the first, modulo 2^32.
pub fn value(unit: UnitKind, arith: Arith, a: u32, b: u32) -> u32
    ensures { result ≡ value_of unit arith a b }
{
    match arith {
        Arith::Add => a.wrapping_add(b),
        Arith::Sub => difference(unit, a, b),
        Arith::And => a & b,
        Arith::Or => a | b,
        Arith::Xor => a ^ b,
        Arith::CmpEq => truth(a == b),
        Arith::CmpGt => truth(b.cast_signed() < a.cast_signed()),
        Arith::CmpLt => truth(a.cast_signed() < b.cast_signed()),
        Arith::CmpGtu => truth(b < a),
        Arith::CmpLtu => truth(a < b),
        Arith::Shl => shift_left(b, a),
        Arith::Shr => shift_signed(b, a),
        Arith::Shru => shift_right(b, a),
        Arith::Mpy => multiply_signed(a, b),
        Arith::Mpyu => multiply(a, b),
    }
}

/// 1 where a comparison holds.
fn truth(holds: bool) -> u32
    ensures { result ≡ bit_of holds }
{
    if holds { 1 } else { 0 }
}

/// SUB of .D subtracts its first operand from its second.
fn difference(unit: UnitKind, a: u32, b: u32) -> u32
    ensures { result ≡ subtracted unit a b }
{
    match unit {
        UnitKind::D => b.wrapping_sub(a),
        _ => a.wrapping_sub(b),
    }
}

/// The product of the low halves as signed numbers.
fn multiply_signed(a: u32, b: u32) -> u32
    ensures { result ≡ signed_product a b }
{
    extended(a % 0x1_0000, 16).wrapping_mul(extended(b % 0x1_0000, 16))
}

/// The product of the low halves.
fn multiply(a: u32, b: u32) -> u32
    ensures { result ≡ product a b }
{
    (a % 0x1_0000).wrapping_mul(b % 0x1_0000)
}

/// The signed number of `count` bits, modulo 2^32.
pub fn extended(value: u32, count: u32) -> u32
    requires some { 1 ≤ count }
    requires within { count < 32 }
    requires fits { value < 2 ^ count }
    ensures { result ≡ extended_of count value }
{
    if value < 1 << (count - 1) {
        value
    } else {
        value.wrapping_sub(1 << count)
    }
}

/// How many cycles later than other values a unit's are read.
pub fn delay(unit: UnitKind) -> u8
    ensures cycles { result ≡ delay_of unit }
    ensures short { result ≤ 1 }
{
    match unit {
        UnitKind::M => 1,
        _ => 0,
    }
}

/// The value of a constant of five bits: signed, but in .D and in shifts.
pub fn constant(unit: UnitKind, arith: Arith, bits: u8) -> u32
    requires { bits < 32 }
    ensures { result ≡ constant_of unit arith bits }
{
    if takes_unsigned(unit, arith) {
        u32::from(bits)
    } else {
        extended(u32::from(bits), 5)
    }
}

fn takes_unsigned(unit: UnitKind, arith: Arith) -> bool
    ensures { result ≡ is_unsigned unit arith }
{
    match (unit, arith) {
        (UnitKind::D, _) | (_, Arith::Shl | Arith::Shr | Arith::Shru) => true,
        _ => false,
    }
}

/// The value of MVK, MVKH or ADDK, with the old value of the register.
pub fn move_value(kind: MoveKind, constant: u16, old: u32) -> u32
    ensures { result ≡ moved kind constant old }
{
    let constant = u32::from(constant);
    match kind {
        MoveKind::Mvk => extended(constant, 16),
        MoveKind::Mvkh => (constant << 16) + old % 0x1_0000,
        MoveKind::Addk => old.wrapping_add(extended(constant, 16)),
    }
}

/// The address so many words from the fetch packet of this address.
pub fn displaced(at: u32, count: u32, field: u32) -> u32
    requires some { 1 ≤ count }
    requires within { count < 32 }
    requires fits { field < 2 ^ count }
    ensures { result ≡ from_packet at count field }
{
    (at / 32 * 32).wrapping_add(extended(field, count).wrapping_mul(4))
}
