ghost use Rattle.std.specs.Prelude.{◌≡◌, ◌≤◌, ℕ};
ghost use Rattle.c6x_encoding.specs.Spelling.{access_bits, bit_of, condition_bits, creg_of, side_bit};
ghost use Rattle.c6x_encoding.specs.Encoded.{two_code, l_code, s_code, d_code, m_code, move_code};

use crate::access::Access;
use crate::arith::Arith;
use crate::cond::Cond;
use crate::cond_reg::CondReg;
use crate::move_kind::MoveKind;
use crate::unit_kind::UnitKind;
use c6x_base::Side;

/// The opcode of an operation on two operands, where the unit has it.
pub fn two_bits(unit: UnitKind, arith: Arith, constant: bool) -> Option<u32>
    ensures { result ≡ two_code unit arith constant }
{
    match unit {
        UnitKind::L => l_bits(arith, constant),
        UnitKind::S => s_bits(arith, constant),
        UnitKind::D => d_bits(arith, constant),
        UnitKind::M => m_bits(arith, constant),
    }
}

#[tactic(auto, unfolding(crate::specs::Encoded::l_code))]
fn l_bits(arith: Arith, constant: bool) -> Option<u32>
    ensures { result ≡ l_code arith constant }
{
    match (arith, constant) {
        (Arith::Add, false) => Some(0x03),
        (Arith::Add, true) => Some(0x02),
        (Arith::Sub, false) => Some(0x07),
        (Arith::Sub, true) => Some(0x06),
        (Arith::And, false) => Some(0x7B),
        (Arith::And, true) => Some(0x7A),
        (Arith::Or, false) => Some(0x7F),
        (Arith::Or, true) => Some(0x7E),
        (Arith::Xor, false) => Some(0x6F),
        (Arith::Xor, true) => Some(0x6E),
        (Arith::CmpEq, false) => Some(0x53),
        (Arith::CmpEq, true) => Some(0x52),
        (Arith::CmpGt, false) => Some(0x47),
        (Arith::CmpGt, true) => Some(0x46),
        (Arith::CmpLt, false) => Some(0x57),
        (Arith::CmpLt, true) => Some(0x56),
        (Arith::CmpGtu, false) => Some(0x4F),
        (Arith::CmpLtu, false) => Some(0x5F),
        _ => None,
    }
}

#[tactic(auto, unfolding(crate::specs::Encoded::s_code))]
fn s_bits(arith: Arith, constant: bool) -> Option<u32>
    ensures { result ≡ s_code arith constant }
{
    match (arith, constant) {
        (Arith::Add, false) => Some(0x07),
        (Arith::Add, true) => Some(0x06),
        (Arith::Sub, false) => Some(0x17),
        (Arith::Sub, true) => Some(0x16),
        (Arith::And, false) => Some(0x1F),
        (Arith::And, true) => Some(0x1E),
        (Arith::Or, false) => Some(0x1B),
        (Arith::Or, true) => Some(0x1A),
        (Arith::Xor, false) => Some(0x0B),
        (Arith::Xor, true) => Some(0x0A),
        (Arith::Shl, false) => Some(0x33),
        (Arith::Shl, true) => Some(0x32),
        (Arith::Shr, false) => Some(0x37),
        (Arith::Shr, true) => Some(0x36),
        (Arith::Shru, false) => Some(0x27),
        (Arith::Shru, true) => Some(0x26),
        _ => None,
    }
}

#[tactic(auto, unfolding(crate::specs::Encoded::d_code))]
fn d_bits(arith: Arith, constant: bool) -> Option<u32>
    ensures { result ≡ d_code arith constant }
{
    match (arith, constant) {
        (Arith::Add, false) => Some(0x10),
        (Arith::Add, true) => Some(0x12),
        (Arith::Sub, false) => Some(0x11),
        (Arith::Sub, true) => Some(0x13),
        _ => None,
    }
}

#[tactic(auto, unfolding(crate::specs::Encoded::m_code))]
fn m_bits(arith: Arith, constant: bool) -> Option<u32>
    ensures { result ≡ m_code arith constant }
{
    match (arith, constant) {
        (Arith::Mpy, false) => Some(0x19),
        (Arith::Mpy, true) => Some(0x18),
        (Arith::Mpyu, false) => Some(0x1F),
        _ => None,
    }
}

/// The low opcode bits of MVK, MVKH and ADDK.
pub fn move_bits(kind: MoveKind) -> u32
    ensures { result ≡ move_code kind }
{
    match kind {
        MoveKind::Mvk => 0b01010,
        MoveKind::Mvkh => 0b11010,
        MoveKind::Addk => 0b10100,
    }
}

/// The opcode of a load or a store.
pub fn opcode(access: Access) -> u32
    ensures { result ≡ access_bits access }
{
    match access {
        Access::Ldhu => 0,
        Access::Ldbu => 1,
        Access::Ldb => 2,
        Access::Stb => 3,
        Access::Ldh => 4,
        Access::Sth => 5,
        Access::Ldw => 6,
        Access::Stw => 7,
    }
}

/// The bit of a side.
pub fn side_number(side: Side) -> u32
    ensures { result ≡ side_bit side }
{
    match side {
        Side::A => 0,
        Side::B => 1,
    }
}

/// A bit.
pub fn bit(set: bool) -> u32
    ensures { result ≡ bit_of set }
{
    if set { 1 } else { 0 }
}

/// creg with z.
pub fn condition_number(condition: Cond) -> u32
    ensures { result ≡ condition_bits condition }
{
    match condition {
        Cond::Always => 0,
        Cond::If { register, zero } => 2 * creg(register) + bit(zero),
    }
}

fn creg(register: CondReg) -> u32
    ensures number { result ≡ creg_of register }
    ensures small { result ≤ 6 }
{
    match register {
        CondReg::B0 => 1,
        CondReg::B1 => 2,
        CondReg::B2 => 3,
        CondReg::A1 => 4,
        CondReg::A2 => 5,
        CondReg::A0 => 6,
    }
}
