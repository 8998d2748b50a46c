ghost use Rattle.std.specs.Prelude.{◌≡◌, ◌^◌, ◌<◌, ◌≤◌, IfOk};
ghost use Rattle.c6x_asm_lines.specs.OperandValues.{same_side, register_on, register_operand, constant_operand, addend_of, symbol_field, same_field, is_index, index_field, inner_field, named_field, value_field, field_operand};
ghost use Rattle.c6x_asm_lines.specs.Bytes.{bytes_at};

use crate::bytes::bytes_at;
use crate::names::kind_of;
use crate::number::Number;
use crate::numbers::number_in;
use crate::operand::Operand;
use crate::primary::Primary;
use crate::range::Range;
use crate::register::Register;
use crate::relocatable::Field;
use crate::relocation::Relocation;
use crate::rule::AsmRule;
use crate::value::Value;
use crate::word::Word;
use c6x_base::Side;
use c6x_reloc::{RelocKind, lowest_bit, width};

const ADDENDS: Range = Range {
    below: 2_147_483_648,
    least: 0,
    most: 2_147_483_647,
    step: 1,
    modulus: 4_294_967_296,
};

pub fn same_side(a: Side, b: Side) -> bool
    ensures { result ≡ same_side a b }
{
    match (a, b) {
        (Side::A, Side::A) | (Side::B, Side::B) => true,
        _ => false,
    }
}

/// The number of a register, where it is on this side.
pub fn register_on(side: Side, register: Register) -> Result<u8, AsmRule>
    ensures { result ≡ register_on side register }
{
    if same_side(register.side, side) {
        Ok(register.number)
    } else {
        Err(AsmRule::Operand)
    }
}

/// The number of the register that an operand is, on this side.
#[tactic(auto, unfolding(crate::specs::OperandValues::register_operand))]
pub fn register_operand(side: Side, operand: Operand) -> Result<u8, AsmRule>
    ensures { result ≡ register_operand side operand }
{
    match operand {
        Operand::Value(Value::Primary(Primary::Register(register))) => register_on(side, register),
        _ => Err(AsmRule::Operand),
    }
}

/// The bits of the number that an operand is.
#[tactic(auto, unfolding(crate::specs::OperandValues::constant_operand))]
pub fn constant_operand(range: Range, operand: Operand) -> Result<u32, AsmRule>
    requires step { 1 ≤ range.step }
    requires some { 1 ≤ range.modulus }
    requires few { range.modulus ≤ 2 ^ 32 }
    ensures is { result ≡ constant_operand range operand }
    ensures fits { range.most < range.modulus → range.below < range.modulus → IfOk result (λ bits. bits < range.modulus) }
    ensures most { range.below ≡ 0 → IfOk result (λ bits. bits ≤ range.most) }
{
    match operand {
        Operand::Value(Value::Primary(Primary::Number(number))) => number_in(range, number),
        _ => Err(AsmRule::Operand),
    }
}

fn addend_of(addend: Option<Number>) -> Result<u32, AsmRule>
    ensures { result ≡ addend_of addend }
{
    match addend {
        None => Ok(0),
        Some(number) => number_in(ADDENDS, number),
    }
}

#[tactic(auto, unfolding(crate::specs::OperandValues::symbol_field))]
fn symbol_field(kind: RelocKind, name: Word, addend: Option<Number>) -> Result<Field, AsmRule>
    ensures is { result ≡ symbol_field kind name addend }
    ensures zero { IfOk result (λ field. field.bits ≡ 0) }
{
    let addend = addend_of(addend)?;
    let relocation = Relocation {
        kind,
        symbol: Some(name),
        addend,
    };
    Ok(Field {
        bits: 0,
        relocation: Some(relocation),
    })
}

fn same_field(kind: RelocKind, other: RelocKind) -> bool
    ensures { result ≡ same_field kind other }
{
    lowest_bit(kind) == lowest_bit(other) && width(kind) == width(other)
}

fn is_index(kind: RelocKind) -> bool
    ensures { result ≡ is_index kind }
{
    matches!(kind, RelocKind::DSBT_INDEX)
}

fn index_field(kind: RelocKind) -> Result<Field, AsmRule>
    ensures is { result ≡ index_field kind }
    ensures zero { IfOk result (λ field. field.bits ≡ 0) }
{
    if is_index(kind) {
        let relocation = Relocation {
            kind,
            symbol: None,
            addend: 0,
        };
        Ok(Field {
            bits: 0,
            relocation: Some(relocation),
        })
    } else {
        Err(AsmRule::Syntax)
    }
}

fn inner_field(kind: RelocKind, inner: Option<Primary>) -> Result<Field, AsmRule>
    ensures is { result ≡ inner_field kind inner }
    ensures zero { IfOk result (λ field. field.bits ≡ 0) }
{
    match inner {
        None => index_field(kind),
        Some(Primary::Symbol { name, addend }) => symbol_field(kind, name, addend),
        Some(_) => Err(AsmRule::Operand),
    }
}

fn named_field(
    default: RelocKind,
    kind: Option<RelocKind>,
    inner: Option<Primary>,
) -> Result<Field, AsmRule>
    ensures is { result ≡ named_field default kind inner }
    ensures zero { IfOk result (λ field. field.bits ≡ 0) }
{
    match kind {
        None => Err(AsmRule::UnknownWord),
        Some(kind) => {
            if same_field(kind, default) {
                inner_field(kind, inner)
            } else {
                Err(AsmRule::Operand)
            }
        }
    }
}

/// The bits of a number, or the relocation of an expression.
#[tactic(auto, unfolding(crate::specs::OperandValues::value_field))]
pub fn value_field(
    text: &[u8],
    default: RelocKind,
    range: Range,
    value: Value,
) -> Result<Field, AsmRule>
    requires step { 1 ≤ range.step }
    requires some { 1 ≤ range.modulus }
    requires few { range.modulus ≤ 2 ^ 32 }
    ensures is { result ≡ value_field text.now default range value }
    ensures fits { range.most < range.modulus → range.below < range.modulus → IfOk result (λ field. field.bits < range.modulus) }
    ensures most { range.below ≡ 0 → IfOk result (λ field. field.bits ≤ range.most) }
{
    match value {
        Value::Primary(Primary::Number(number)) => {
            let bits = number_in(range, number)?;
            Ok(Field {
                bits,
                relocation: None,
            })
        }
        Value::Primary(Primary::Symbol { name, addend }) => symbol_field(default, name, addend),
        Value::Primary(Primary::Register(_)) => Err(AsmRule::Operand),
        Value::Kind { kind, inner } => named_field(
            default,
            kind_of(bytes_at(text, kind.at, kind.len)),
            inner,
        ),
    }
}

/// The same of an operand.
#[tactic(auto, unfolding(crate::specs::OperandValues::field_operand))]
pub fn field_operand(
    text: &[u8],
    default: RelocKind,
    range: Range,
    operand: Operand,
) -> Result<Field, AsmRule>
    requires step { 1 ≤ range.step }
    requires some { 1 ≤ range.modulus }
    requires few { range.modulus ≤ 2 ^ 32 }
    ensures is { result ≡ field_operand text.now default range operand }
    ensures fits { range.most < range.modulus → range.below < range.modulus → IfOk result (λ field. field.bits < range.modulus) }
    ensures most { range.below ≡ 0 → IfOk result (λ field. field.bits ≤ range.most) }
{
    match operand {
        Operand::Value(value) => value_field(text, default, range, value),
        _ => Err(AsmRule::Operand),
    }
}
