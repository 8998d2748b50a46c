ghost use Rattle.std.specs.Prelude.{◌≡◌, ◌*◌, ◌/◌, ◌≤◌};
ghost use Rattle.c6x_asm_lines.specs.Addresses.{base_on, bracketed, missing_offset, long_base_on, long_kind, long_range, mode_number, placed, place_of};

use crate::address::Address;
use crate::combine::both;
use crate::mode::Mode;
use crate::numbers::number_in;
use crate::offset::Offset;
use crate::operand::Operand;
use crate::operand_values::{register_on, value_field};
use crate::place::Place;
use crate::primary::Primary;
use crate::range::Range;
use crate::register::Register;
use crate::rule::AsmRule;
use crate::value::Value;
use c6x_base::Side;
use c6x_reloc::RelocKind;

const FIVE_BITS: Range = Range {
    below: 0,
    least: 0,
    most: 31,
    step: 1,
    modulus: 32,
};

fn base_on(side: Side, base: Option<Register>) -> Result<u8, AsmRule>
    ensures { result ≡ base_on side base }
{
    match base {
        None => Err(AsmRule::Operand),
        Some(register) => register_on(side, register),
    }
}

fn mode_number(mode: Mode) -> u8
    ensures is { result ≡ mode_number mode }
    ensures small { result ≤ 11 }
{
    match mode {
        Mode::Negative => 0,
        Mode::Positive => 1,
        Mode::PreDecrement => 8,
        Mode::PreIncrement => 9,
        Mode::PostDecrement => 10,
        Mode::PostIncrement => 11,
    }
}

fn bracketed(side: Side, mode: Mode, value: Value) -> Result<(u8, u8), AsmRule>
    ensures { result ≡ bracketed side mode value }
{
    match value {
        Value::Primary(Primary::Register(register)) => {
            let offset = register_on(side, register)?;
            Ok((mode_number(mode) + 4, offset))
        }
        Value::Primary(Primary::Number(number)) => {
            let offset = number_in(FIVE_BITS, number)?;
            Ok((mode_number(mode), offset as u8))
        }
        _ => Err(AsmRule::Operand),
    }
}

fn missing_offset(mode: Mode) -> u8
    ensures { result ≡ missing_offset mode }
{
    match mode {
        Mode::Negative | Mode::Positive => 0,
        _ => 1,
    }
}

fn long_base_on(side: Side, base: Option<Register>) -> Result<u8, AsmRule>
    ensures { result ≡ long_base_on side base }
{
    match side {
        Side::A => Err(AsmRule::Operand),
        Side::B => {
            let number = base_on(Side::B, base)?;
            if number == 14 || number == 15 {
                Ok(number)
            } else {
                Err(AsmRule::Operand)
            }
        }
    }
}

fn long_kind(size: u32) -> RelocKind
    ensures { result ≡ long_kind size }
{
    match size {
        1 => RelocKind::SBR_U15_B,
        2 => RelocKind::SBR_U15_H,
        _ => RelocKind::SBR_U15_W,
    }
}

fn long_range(size: u32) -> Range
    requires { size ≤ 4 }
    ensures { result ≡ long_range size }
{
    Range {
        below: 0,
        least: 0,
        most: 32_767 * size,
        step: size,
        modulus: 4_294_967_296,
    }
}

// The long form's offset counts in the access size.
fn scaled(bits: u32, size: u32) -> u16
    requires some { 1 ≤ size }
    requires few { bits ≤ 32767 * size }
    ensures { result ≡ bits / size }
{
    (bits / size) as u16
}

fn placed(text: &[u8], size: u32, side: Side, address: Address) -> Result<Place, AsmRule>
    requires some { 1 ≤ size }
    requires few { size ≤ 4 }
    ensures { result ≡ placed text.now size side address.base address.mode address.offset }
{
    match address.offset {
        Offset::Missing => {
            let base = base_on(side, address.base)?;
            Ok(Place::Short {
                mode: mode_number(address.mode),
                offset: missing_offset(address.mode),
                base,
            })
        }
        Offset::Bracket(value) => {
            let (base, (mode, offset)) = both(
                base_on(side, address.base),
                bracketed(side, address.mode, value),
            )?;
            Ok(Place::Short { mode, offset, base })
        }
        Offset::Parenthesis(value) => {
            let base = long_base_on(side, address.base);
            let field = value_field(text, long_kind(size), long_range(size), value);
            let (base, field) = both(base, field)?;
            Ok(Place::Long {
                base15: base == 15,
                offset: scaled(field.bits, size),
                relocation: field.relocation,
            })
        }
    }
}

/// The place that an operand is, for an access of this size in bytes by a unit of this side.
#[tactic(auto, unfolding(crate::specs::Addresses::place_of))]
pub fn place_of(text: &[u8], size: u32, side: Side, operand: Operand) -> Result<Place, AsmRule>
    requires some { 1 ≤ size }
    requires few { size ≤ 4 }
    ensures { result ≡ place_of text.now size side operand }
{
    match operand {
        Operand::Address(address) => placed(text, size, side, address),
        _ => Err(AsmRule::Operand),
    }
}
