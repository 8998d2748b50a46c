ghost use Rattle.std.specs.Prelude.{◌≡◌, ◌<◌, ◌≤◌, length, IfOk};
ghost use Rattle.c6x_asm_instr.specs.Instructions.{first_range, first_of, second_side, two_with, two_of, move_field, move_of};

use crate::units::{has_form, is_cross, is_swapped, other_side};
use c6x_asm_lines::{
    AsmRule, Field, Operand, Primary, Range, RelocatableOp, Unit, Value, both, constant_operand,
    field_operand, number_in, register_on, register_operand,
};
use c6x_base::Side;
use c6x_encoding::{Arith, First, MoveKind, Op, UnitKind};
use c6x_reloc::RelocKind;

const SIGNED_16: Range = Range {
    below: 32_768,
    least: 0,
    most: 32_767,
    step: 1,
    modulus: 65_536,
};

const UNSIGNED_16: Range = Range {
    below: 0,
    least: 0,
    most: 65_535,
    step: 1,
    modulus: 65_536,
};

fn first_range(unsigned: bool) -> Range
    ensures is { result ≡ first_range unsigned }
    ensures step { result.step ≡ 1 }
    ensures modulus { result.modulus ≡ 32 }
    ensures below { result.below ≤ 16 }
    ensures most { result.most ≤ 31 }
{
    if unsigned {
        Range {
            below: 0,
            least: 0,
            most: 31,
            step: 1,
            modulus: 32,
        }
    } else {
        Range {
            below: 16,
            least: 0,
            most: 15,
            step: 1,
            modulus: 32,
        }
    }
}

#[tactic(auto, unfolding(crate::specs::Instructions::first_of))]
fn first_of(unit: UnitKind, arith: Arith, side: Side, operand: Operand) -> Result<First, AsmRule>
    ensures { result ≡ first_of unit arith side operand }
{
    match operand {
        Operand::Value(Value::Primary(Primary::Register(register))) => {
            let number = register_on(side, register)?;
            Ok(First::Register(number))
        }
        Operand::Value(Value::Primary(Primary::Number(number))) => {
            if has_form(unit, arith, true) {
                let bits = number_in(first_range(is_swapped(unit, arith)), number)?;
                Ok(First::Constant(bits as u8))
            } else {
                Err(AsmRule::Operand)
            }
        }
        _ => Err(AsmRule::Operand),
    }
}

fn second_side(unit: Unit) -> Side
    ensures { result ≡ second_side unit }
{
    if is_cross(unit.path) {
        other_side(unit.side)
    } else {
        unit.side
    }
}

#[tactic(auto, unfolding(crate::specs::Instructions::two_with))]
fn two_with(
    arith: Arith,
    unit: Unit,
    first: Operand,
    second: Operand,
    dst: Operand,
) -> Result<RelocatableOp, AsmRule>
    ensures { result ≡ two_with arith unit first second dst }
{
    let first = first_of(unit.kind, arith, unit.side, first);
    let second = register_operand(second_side(unit), second);
    let dst = register_operand(unit.side, dst);
    let (first, (second, dst)) = both(first, both(second, dst))?;
    let op = Op::Two {
        unit: unit.kind,
        arith,
        side: unit.side,
        cross: is_cross(unit.path),
        first,
        second,
        dst,
    };
    Ok(RelocatableOp {
        op,
        relocation: None,
    })
}

/// An operation on two operands.
pub fn two_of(arith: Arith, unit: Unit, operands: &[Operand]) -> Result<RelocatableOp, AsmRule>
    ensures { result ≡ two_of arith unit operands.now }
{
    match operands {
        [x, y, z] => {
            if is_swapped(unit.kind, arith) {
                two_with(arith, unit, *y, *x, *z)
            } else {
                two_with(arith, unit, *x, *y, *z)
            }
        }
        _ => Err(AsmRule::Syntax),
    }
}

#[tactic(auto, unfolding(crate::specs::Instructions::move_field))]
fn move_field(text: &[u8], kind: MoveKind, operand: Operand) -> Result<Field, AsmRule>
    ensures is { result ≡ move_field text.now kind operand }
    ensures few { IfOk result (λ field. field.bits < 65536) }
{
    match kind {
        MoveKind::Mvk => field_operand(text, RelocKind::ABS_S16, SIGNED_16, operand),
        MoveKind::Mvkh => field_operand(text, RelocKind::ABS_H16, UNSIGNED_16, operand),
        MoveKind::Addk => {
            let bits = constant_operand(SIGNED_16, operand)?;
            Ok(Field {
                bits,
                relocation: None,
            })
        }
    }
}

/// MVK, MVKH or ADDK.
pub fn move_of(
    text: &[u8],
    kind: MoveKind,
    unit: Unit,
    operands: &[Operand],
) -> Result<RelocatableOp, AsmRule>
    ensures { result ≡ move_of text.now kind unit operands.now }
{
    match operands {
        [x, dst] => {
            let (field, dst) = both(
                move_field(text, kind, *x),
                register_operand(unit.side, *dst),
            )?;
            let op = Op::Move {
                kind,
                side: unit.side,
                constant: field.bits as u16,
                dst,
            };
            Ok(RelocatableOp {
                op,
                relocation: field.relocation,
            })
        }
        _ => Err(AsmRule::Syntax),
    }
}
