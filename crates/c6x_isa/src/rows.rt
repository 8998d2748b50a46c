ghost use Rattle.std.specs.Prelude.{◌≡◌, ◌<◌, ◌≤◌, ◌^◌, ℕ, Bool, true, Option, Some, None, IfSome, if◌then◌else◌};
ghost use Rattle.c6x_encoding.specs.Values.{changes_base};
ghost use Rattle.c6x_encoding.specs.Spelling.{first_bits, IsValid};
ghost use Rattle.c6x_encoding.specs.Bounds.{FitsOp};
ghost use Rattle.c6x_encoding.specs.Families.{is_access, is_branch, is_computing};
ghost use Rattle.c6x_encoding.specs.Rows.{effects_of, first_value, long_base, op_effects, short_effects, only_wait as only_wait_of, written_to, FitsEffects, FitsWrite};

use crate::conditions::{holds, read_from, wait};
use crate::memory::{access_to, changed, changes, distance, keeps, size};
use crate::values::{constant, delay, displaced, move_value, value};
use c6x_base::Side;
use c6x_encoding::{Access, Arith, Effects, First, Instr, Op, Regs, UnitKind, Write};

/// What the instruction at address `at`, whose packet ends before address `next`, does with these
/// register values. Where its condition is false, that is its wait alone (SPRU732, "Instruction
/// Descriptions").
#[tactic(auto, using(c6x_encoding::proofs::Bounds::fits_valid), unfolding(c6x_encoding::specs::Rows::effects_of))]
pub fn effects(instr: &Instr, at: u32, next: u32, regs: &Regs) -> Effects
    requires { IsValid instr.now }
    ensures row { result ≡ effects_of instr.now at next regs.now }
    ensures fits { FitsEffects result }
{
    if holds(instr.condition, regs) {
        operation(instr.op, at, next, regs)
    } else {
        only_wait(wait(instr.op))
    }
}

/// A wait alone.
#[tactic(auto, unfolding(c6x_encoding::specs::Rows::only_wait))]
pub fn only_wait(wait: u8) -> Effects
    requires { wait ≤ 8 }
    ensures alone { result ≡ only_wait_of wait }
    ensures fits { FitsEffects result }
{
    Effects {
        result: None,
        update: None,
        access: None,
        target: None,
        wait,
    }
}

/// A write of a register.
pub fn written(side: Side, register: u8, value: u32, delay: u8) -> Option<Write>
    requires there { register < 32 }
    requires soon { delay ≤ 4 }
    ensures write { result ≡ written_to side register value delay }
    ensures fits { IfSome result FitsWrite }
{
    Some(Write {
        side,
        register,
        value,
        delay,
    })
}

/// What an operation does.
fn operation(op: Op, at: u32, next: u32, regs: &Regs) -> Effects
    requires { FitsOp op }
    ensures row { result ≡ op_effects op at next regs.now }
    ensures fits { FitsEffects result }
{
    match op {
        Op::Two { .. } | Op::Move { .. } => Effects {
            result: computed(op, regs),
            ..only_wait(0)
        },
        Op::Branch { .. }
        | Op::Callp { .. }
        | Op::BranchNop { .. }
        | Op::BranchReg { .. }
        | Op::BranchRegNop { .. } => branch(op, at, next, regs),
        Op::AddKpc { field, wait, dst } => Effects {
            result: written(Side::B, dst, displaced(at, 7, u32::from(field)), 0),
            ..only_wait(wait)
        },
        Op::Nop { cycles } => only_wait(cycles - 1),
        Op::Short { .. } | Op::Long { .. } => access(op, regs),
    }
}

/// The write of an operation that only computes a value.
fn computed(op: Op, regs: &Regs) -> Option<Write>
    requires computes { is_computing op ≡ true }
    requires fits { FitsOp op }
    ensures row { (at next : ℕ) → record (only_wait_of 0) { result = result } ≡ op_effects op at next regs.now }
    ensures fits { IfSome result FitsWrite }
{
    match op {
        Op::Two {
            unit,
            arith,
            side,
            cross,
            first,
            second,
            dst,
        } => {
            let a = first_operand(unit, arith, side, first, regs);
            let b = regs.get(read_from(side, cross), second);
            written(side, dst, value(unit, arith, a, b), delay(unit))
        }
        Op::Move {
            kind,
            side,
            constant,
            dst,
        } => {
            let value = move_value(kind, constant, regs.get(side, dst));
            written(side, dst, value, 0)
        }
        _ => unreachable!(),
    }
}

/// What a branch does.
fn branch(op: Op, at: u32, next: u32, regs: &Regs) -> Effects
    requires branches { is_branch op ≡ true }
    requires fits { FitsOp op }
    ensures row { result ≡ op_effects op at next regs.now }
    ensures fits { FitsEffects result }
{
    match op {
        Op::Branch { field, .. } => to(displaced(at, 21, field), 0),
        Op::Callp { side, field } => Effects {
            result: written(side, 3, next, 0),
            ..to(displaced(at, 21, field), 5)
        },
        Op::BranchNop { field, wait, .. } => to(displaced(at, 12, u32::from(field)), wait),
        Op::BranchReg { cross, source } => to(regs.get(read_from(Side::B, cross), source), 0),
        Op::BranchRegNop {
            cross,
            source,
            wait,
        } => to(regs.get(read_from(Side::B, cross), source), wait),
        _ => unreachable!(),
    }
}

/// A branch to an address alone.
#[tactic(auto, unfolding(c6x_encoding::specs::Rows::only_wait))]
fn to(address: u32, wait: u8) -> Effects
    requires { wait ≤ 8 }
    ensures alone { result ≡ record (only_wait_of wait) { target = Some address } }
    ensures fits { FitsEffects result }
{
    Effects {
        target: Some(address),
        ..only_wait(wait)
    }
}

/// What a load or a store does.
fn access(op: Op, regs: &Regs) -> Effects
    requires accesses { is_access op ≡ true }
    requires fits { FitsOp op }
    ensures row { (at next : ℕ) → result ≡ op_effects op at next regs.now }
    ensures fits { FitsEffects result }
{
    match op {
        Op::Short {
            access,
            unit_side,
            value_side,
            mode,
            offset,
            base,
            register,
        } => short(
            access, unit_side, value_side, mode, offset, base, register, regs,
        ),
        Op::Long {
            access,
            value_side,
            base15,
            offset,
            register,
        } => {
            let base = regs.get(Side::B, if base15 { 15 } else { 14 });
            let distance = u32::from(size(access)) * u32::from(offset);
            let address = base.wrapping_add(distance);
            Effects {
                access: access_to(access, value_side, register, address, regs),
                ..only_wait(0)
            }
        }
        _ => unreachable!(),
    }
}

/// What a short load or store does.
fn short(
    access: Access,
    unit_side: Side,
    value_side: Side,
    mode: u8,
    offset: u8,
    base: u8,
    register: u8,
    regs: &Regs,
) -> Effects
    requires { (mode < 16) × (offset < 32) × (base < 32) × (register < 32) }
    ensures row { (at next : ℕ) → result
        ≡ op_effects (Op.Short access unit_side value_side mode offset base register) at next regs.now }
    ensures fits { FitsEffects result }
{
    let old = regs.get(unit_side, base);
    let new = changed(mode, old, distance(access, unit_side, mode, offset, regs));
    let address = if keeps(mode) { old } else { new };
    Effects {
        update: updated(mode, unit_side, base, new),
        access: access_to(access, value_side, register, address, regs),
        ..only_wait(0)
    }
}

/// The first operand.
fn first_operand(unit: UnitKind, arith: Arith, side: Side, first: First, regs: &Regs) -> u32
    requires { first_bits first < 32 }
    ensures { result ≡ first_value regs.now unit arith side first }
{
    match first {
        First::Register(number) => regs.get(side, number),
        First::Constant(bits) => constant(unit, arith, bits),
    }
}

/// The changed base register, where the mode changes it.
fn updated(mode: u8, side: Side, base: u8, new: u32) -> Option<Write>
    requires { base < 32 }
    ensures write { result ≡ (if changes_base mode then written_to side base new 0 else None) }
    ensures fits { IfSome result FitsWrite }
{
    if changes(mode) {
        written(side, base, new, 0)
    } else {
        None
    }
}
