ghost use Rattle.std.specs.Prelude.{◌≡◌, ℕ, ◌+◌, ◌≤◌, Bool, true};
ghost use Rattle.c6x_encoding.specs.Families.{is_access, is_computing};
ghost use Rattle.c6x_encoding.specs.Spelling.{first_bits, is_constant, is_part, Mode, Count};
ghost use Rattle.c6x_encoding.specs.Encoded.{encoded, joined_fields, two_fields, layout_of};

use crate::access::Access;
use crate::arith::Arith;
use crate::codes::{bit, condition_number, move_bits, opcode, side_number, two_bits};
use crate::fields::join;
use crate::first::First;
use crate::head::Head;
use crate::instr::Instr;
use crate::move_kind::MoveKind;
use crate::op::Op;
use crate::operands::{Layout, Operands};
use crate::unit_kind::UnitKind;
use c6x_base::Side;

/// The word of an instruction, where it has one.
pub fn word_of(instr: &Instr) -> Option<u32>
    ensures { result ≡ encoded instr.now }
{
    let head = Head {
        condition: instr.condition,
        chained: instr.chained,
    };
    match instr.op {
        Op::Two { .. } | Op::Move { .. } => computing_word(head, instr.op),
        Op::Branch { side, field } => branch_word(head, side, field),
        Op::Callp { side, field } => callp_word(head, side, field),
        Op::BranchNop { side, field, wait } => branch_nop_word(head, side, field, wait),
        Op::BranchReg { cross, source } => branch_reg_word(head, cross, source),
        Op::BranchRegNop {
            cross,
            source,
            wait,
        } => branch_reg_nop_word(head, cross, source, wait),
        Op::AddKpc { field, wait, dst } => add_kpc_word(head, field, wait, dst),
        Op::Nop { cycles } => nop_word(head, cycles),
        Op::Short { .. } | Op::Long { .. } => access_word(head, instr.op),
    }
}

/// The word of an operation that only computes a value.
fn computing_word(head: Head, op: Op) -> Option<u32>
    requires { is_computing op ≡ true }
    ensures { result ≡ encoded (record { condition = head.condition; op = op; chained = head.chained }) }
{
    match op {
        Op::Two {
            unit,
            arith,
            side,
            cross,
            first,
            second,
            dst,
        } => operation_word(head, unit, arith, side, cross, first, second, dst),
        Op::Move {
            kind,
            side,
            constant,
            dst,
        } => move_word(head, kind, side, constant, dst),
        _ => unreachable!(),
    }
}

/// The word of a load or a store.
fn access_word(head: Head, op: Op) -> Option<u32>
    requires { is_access op ≡ true }
    ensures { result ≡ encoded (record { condition = head.condition; op = op; chained = head.chained }) }
{
    match op {
        Op::Short {
            access,
            unit_side,
            value_side,
            mode,
            offset,
            base,
            register,
        } => {
            short_word(
                head, access, unit_side, value_side, mode, offset, base, register,
            )
        }
        Op::Long {
            access,
            value_side,
            base15,
            offset,
            register,
        } => { long_word(head, access, value_side, base15, offset, register) }
        _ => unreachable!(),
    }
}

/// The word of an operation on two operands.
fn operation_word(
    head: Head,
    unit: UnitKind,
    arith: Arith,
    side: Side,
    cross: bool,
    first: First,
    second: u8,
    dst: u8,
) -> Option<u32>
    ensures { result
        ≡ encoded (record {
          condition = head.condition;
          op = Op.Two unit arith side cross first second dst;
          chained = head.chained;
        }) }
{
    let operands = Operands {
        condition: condition_number(head.condition),
        dst: dst as u32,
        second: second as u32,
        first: first_number(first),
        cross: bit(cross),
        side: side_number(side),
        chained: bit(head.chained),
    };
    two_word(unit, two_bits(unit, arith, has_constant(first))?, operands)
}

fn first_number(first: First) -> u32
    ensures { result ≡ first_bits first }
{
    match first {
        First::Register(number) => number as u32,
        First::Constant(bits) => bits as u32,
    }
}

fn has_constant(first: First) -> bool
    ensures { result ≡ is_constant first }
{
    match first {
        First::Register(_) => false,
        First::Constant(_) => true,
    }
}

/// The opcode's fields of a unit.
fn layout(unit: UnitKind) -> Layout
    ensures drawn { result ≡ layout_of unit }
    ensures whole { result.cross + result.code + result.low ≤ 11 }
{
    match unit {
        UnitKind::L => Layout {
            cross: 1,
            code: 7,
            low: 3,
            fixed: 0b110,
        },
        UnitKind::S => Layout {
            cross: 1,
            code: 6,
            low: 4,
            fixed: 0b1000,
        },
        UnitKind::D => Layout {
            cross: 0,
            code: 6,
            low: 5,
            fixed: 0b10000,
        },
        UnitKind::M => Layout {
            cross: 1,
            code: 5,
            low: 5,
            fixed: 0b00000,
        },
    }
}

fn two_word(unit: UnitKind, code: u32, operands: Operands) -> Option<u32>
    ensures { result ≡ joined_fields (two_fields (layout_of unit) code operands) }
{
    let layout = layout(unit);
    join(&[
        (4, operands.condition),
        (5, operands.dst),
        (5, operands.second),
        (5, operands.first),
        (layout.cross, operands.cross),
        (layout.code, code),
        (layout.low, layout.fixed),
        (1, operands.side),
        (1, operands.chained),
    ])
}

#[tactic(auto, unfolding(crate::specs::Encoded::encoded))]
fn move_word(head: Head, kind: MoveKind, side: Side, constant: u16, dst: u8) -> Option<u32>
    ensures { result ≡ encoded (record { condition = head.condition; op = Op.Move kind side constant dst; chained = head.chained }) }
{
    join(&[
        (4, condition_number(head.condition)),
        (5, dst as u32),
        (16, constant as u32),
        (5, move_bits(kind)),
        (1, side_number(side)),
        (1, bit(head.chained)),
    ])
}

#[tactic(auto, unfolding(crate::specs::Encoded::encoded))]
fn branch_word(head: Head, side: Side, field: u32) -> Option<u32>
    ensures { result ≡ encoded (record { condition = head.condition; op = Op.Branch side field; chained = head.chained }) }
{
    join(&[
        (4, condition_number(head.condition)),
        (21, field),
        (5, 0b00100),
        (1, side_number(side)),
        (1, bit(head.chained)),
    ])
}

/// CALLP has no condition: a field of no bits.
#[tactic(auto, unfolding(crate::specs::Encoded::encoded))]
fn callp_word(head: Head, side: Side, field: u32) -> Option<u32>
    ensures { result ≡ encoded (record { condition = head.condition; op = Op.Callp side field; chained = head.chained }) }
{
    join(&[
        (0, condition_number(head.condition)),
        (4, 0b0001),
        (21, field),
        (5, 0b00100),
        (1, side_number(side)),
        (1, bit(head.chained)),
    ])
}

#[tactic(auto, unfolding(crate::specs::Encoded::encoded))]
fn branch_nop_word(head: Head, side: Side, field: u16, wait: u8) -> Option<u32>
    ensures { result ≡ encoded (record { condition = head.condition; op = Op.BranchNop side field wait; chained = head.chained }) }
{
    join(&[
        (4, condition_number(head.condition)),
        (12, field as u32),
        (3, wait as u32),
        (11, 0b00001001000),
        (1, side_number(side)),
        (1, bit(head.chained)),
    ])
}

#[tactic(auto, unfolding(crate::specs::Encoded::encoded))]
fn branch_reg_word(head: Head, cross: bool, source: u8) -> Option<u32>
    ensures { result ≡ encoded (record { condition = head.condition; op = Op.BranchReg cross source; chained = head.chained }) }
{
    join(&[
        (4, condition_number(head.condition)),
        (5, 0),
        (5, source as u32),
        (5, 0),
        (1, bit(cross)),
        (10, 0b0011011000),
        (1, 1),
        (1, bit(head.chained)),
    ])
}

#[tactic(auto, unfolding(crate::specs::Encoded::encoded))]
fn branch_reg_nop_word(head: Head, cross: bool, source: u8, wait: u8) -> Option<u32>
    ensures { result ≡ encoded (record { condition = head.condition; op = Op.BranchRegNop cross source wait; chained = head.chained }) }
{
    join(&[
        (4, condition_number(head.condition)),
        (5, 1),
        (5, source as u32),
        (2, 0),
        (3, wait as u32),
        (1, bit(cross)),
        (10, 0b0011011000),
        (1, 1),
        (1, bit(head.chained)),
    ])
}

#[tactic(auto, unfolding(crate::specs::Encoded::encoded))]
fn add_kpc_word(head: Head, field: u8, wait: u8, dst: u8) -> Option<u32>
    ensures { result ≡ encoded (record { condition = head.condition; op = Op.AddKpc field wait dst; chained = head.chained }) }
{
    join(&[
        (4, condition_number(head.condition)),
        (5, dst as u32),
        (7, field as u32),
        (3, wait as u32),
        (11, 0b00001011000),
        (1, 1),
        (1, bit(head.chained)),
    ])
}

/// NOP has no condition, and n - 1 in its word.
#[tactic(auto, unfolding(crate::specs::Encoded::encoded))]
fn nop_word(head: Head, cycles: u8) -> Option<u32>
    ensures { result ≡ encoded (record { condition = head.condition; op = Op.Nop cycles; chained = head.chained }) }
{
    if cycles < 1 || 9 < cycles {
        return None;
    }
    join(&[
        (0, condition_number(head.condition)),
        (15, 0),
        (4, (cycles - 1) as u32),
        (12, 0),
        (1, bit(head.chained)),
    ])
}

/// Whether a short load or store has this mode.
pub fn is_mode(mode: u8) -> bool
    ensures { result ≡ is_part Mode mode }
{
    mode < 2 || (4 <= mode && mode < 6) || (8 <= mode && mode < 16)
}

/// A short load or store, with its mode, offset, base and register.
#[tactic(auto, unfolding(crate::specs::Encoded::encoded))]
fn short_word(
    head: Head,
    access: Access,
    unit_side: Side,
    value_side: Side,
    mode: u8,
    offset: u8,
    base: u8,
    register: u8,
) -> Option<u32>
    ensures { result
        ≡ encoded (record {
          condition = head.condition;
          op = Op.Short access unit_side value_side mode offset base register;
          chained = head.chained;
        }) }
{
    if !is_mode(mode) {
        return None;
    }
    join(&[
        (4, condition_number(head.condition)),
        (5, register as u32),
        (5, base as u32),
        (5, offset as u32),
        (4, mode as u32),
        (1, 0),
        (1, side_number(unit_side)),
        (3, opcode(access)),
        (2, 0b01),
        (1, side_number(value_side)),
        (1, bit(head.chained)),
    ])
}

#[tactic(auto, unfolding(crate::specs::Encoded::encoded))]
fn long_word(
    head: Head,
    access: Access,
    value_side: Side,
    base15: bool,
    offset: u16,
    register: u8,
) -> Option<u32>
    ensures { result
        ≡ encoded (record {
          condition = head.condition;
          op = Op.Long access value_side base15 offset register;
          chained = head.chained;
        }) }
{
    join(&[
        (4, condition_number(head.condition)),
        (5, register as u32),
        (15, offset as u32),
        (1, bit(base15)),
        (3, opcode(access)),
        (2, 0b11),
        (1, side_number(value_side)),
        (1, bit(head.chained)),
    ])
}
