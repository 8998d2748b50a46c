ghost use Rattle.std.specs.Prelude.{◌≡◌, ◌+◌, ◌*◌, ◌<◌, ◌≤◌, ◌++◌, length};
ghost use Rattle.c6x_encoding.specs.Bounds.{FitsOp};
ghost use Rattle.c6x_encoding.specs.Spelling.{first_bits};
ghost use Rattle.c6x_dis.specs.Atoms.{bytes_of};
ghost use Rattle.c6x_dis.specs.Shown.{register_at, natural, signed, constant, first_operand, second_side, move_number, mode_of_number, short_offset, short_address, long_address, memory_operands, access_operands, branch_operands, operands_atoms, operands_for};

use crate::writing::{put_operand, put_pair, put_triple};
use c6x_asm_instr::{is_store, is_swapped, other_side, size_of};
use c6x_asm_lines::{Address, Mode, Number, Offset, Operand, Primary, Register, Value};
use c6x_base::{Line, Side};
use c6x_encoding::{Access, Arith, First, MoveKind, Op, UnitKind};

fn register_at(side: Side, number: u8) -> Operand
    ensures { result ≡ register_at side number }
{
    Operand::Value(Value::Primary(Primary::Register(Register { side, number })))
}

fn natural(size: u32) -> Number
    ensures { result ≡ natural size }
{
    Number {
        negative: false,
        size: Some(size),
    }
}

/// The number that these bits are in two's complement, where the least one is `-half`.
fn signed(half: u32, bits: u32) -> Number
    requires few { half ≤ 1048576 }
    requires fits { bits ≤ 2 * half }
    ensures { result ≡ signed half bits }
{
    if bits < half {
        natural(bits)
    } else {
        Number {
            negative: true,
            size: Some(2 * half - bits),
        }
    }
}

fn constant(number: Number) -> Operand
    ensures { result ≡ constant number }
{
    Operand::Value(Value::Primary(Primary::Number(number)))
}

fn first_operand(unit: UnitKind, arith: Arith, side: Side, first: First) -> Operand
    requires { first_bits first < 32 }
    ensures { result ≡ first_operand unit arith side first }
{
    match first {
        First::Register(number) => register_at(side, number),
        First::Constant(bits) if is_swapped(unit, arith) => constant(natural(u32::from(bits))),
        First::Constant(bits) => constant(signed(16, u32::from(bits))),
    }
}

fn second_side(side: Side, cross: bool) -> Side
    ensures { result ≡ second_side side cross }
{
    if cross { other_side(side) } else { side }
}

fn move_number(kind: MoveKind, bits: u16) -> Number
    ensures { result ≡ move_number kind bits }
{
    match kind {
        MoveKind::Mvkh => natural(u32::from(bits)),
        MoveKind::Mvk | MoveKind::Addk => signed(32_768, u32::from(bits)),
    }
}

/// The mode with this number, or this less four where the offset is a register (SPRU732, "Addressing Modes").
fn mode_of_number(number: u8) -> Mode
    ensures { result ≡ mode_of_number number }
{
    match (8 <= number, number % 4) {
        (true, 0) => Mode::PreDecrement,
        (true, 1) => Mode::PreIncrement,
        (true, 2) => Mode::PostDecrement,
        (true, _) => Mode::PostIncrement,
        (false, 0 | 2) => Mode::Negative,
        (false, _) => Mode::Positive,
    }
}

fn short_offset(side: Side, mode: u8, offset: u8) -> Value
    ensures { result ≡ short_offset side mode offset }
{
    if mode / 4 % 2 == 1 {
        Value::Primary(Primary::Register(Register {
            side,
            number: offset,
        }))
    } else {
        Value::Primary(Primary::Number(natural(u32::from(offset))))
    }
}

fn short_address(side: Side, mode: u8, offset: u8, base: u8) -> Operand
    ensures { result ≡ short_address side mode offset base }
{
    Operand::Address(Address {
        base: Some(Register { side, number: base }),
        mode: mode_of_number(mode),
        offset: Offset::Bracket(short_offset(side, mode, offset)),
    })
}

/// The offset in bytes from B14 or B15.
fn long_address(access: Access, base15: bool, offset: u16) -> Operand
    ensures { result ≡ long_address access base15 offset }
{
    let bytes = size_of(access) * u32::from(offset);
    Operand::Address(Address {
        base: Some(Register {
            side: Side::B,
            number: if base15 { 15 } else { 14 },
        }),
        mode: Mode::Positive,
        offset: Offset::Parenthesis(Value::Primary(Primary::Number(natural(bytes)))),
    })
}

/// Puts the operands of a load or a store, of which a store has its register first.
fn put_memory(line: &mut Line, access: Access, address: Operand, register: Operand)
    requires { length line.old + 45 ≤ 256 }
    ensures is { line.new ≡ line.old ++ bytes_of (operands_atoms (memory_operands access address register)) }
    ensures short { length line.new ≤ length line.old + 45 }
{
    if is_store(access) {
        put_pair(line, register, address);
    } else {
        put_pair(line, address, register);
    }
}

/// Puts the operands of a load or a store.
#[tactic(auto, unfolding(crate::specs::Shown::access_operands))]
fn put_access_operands(line: &mut Line, op: Op)
    requires { length line.old + 68 ≤ 256 }
    ensures is { line.new ≡ line.old ++ bytes_of (operands_atoms (access_operands op)) }
    ensures short { length line.new ≤ length line.old + 68 }
{
    match op {
        Op::Short {
            access,
            unit_side,
            value_side,
            mode,
            offset,
            base,
            register,
        } => {
            let address = short_address(unit_side, mode, offset, base);
            put_memory(line, access, address, register_at(value_side, register))
        }
        Op::Long {
            access,
            value_side,
            base15,
            offset,
            register,
        } => {
            let address = long_address(access, base15, offset);
            put_memory(line, access, address, register_at(value_side, register))
        }
        _ => {}
    }
}

/// The target of a branch, as the number that its field is.
fn target(half: u32, field: u32) -> Operand
    requires few { half ≤ 1048576 }
    requires fits { field ≤ 2 * half }
    ensures { result ≡ constant (signed half field) }
{
    constant(signed(half, field))
}

fn count(number: u8) -> Operand
    ensures { result ≡ constant (natural number) }
{
    constant(natural(u32::from(number)))
}

/// Puts the operands of a branch, CALLP or ADDKPC.
#[tactic(auto, unfolding(crate::specs::Shown::branch_operands), using(crate::proofs::Bytes::one_bytes))]
fn put_branch_operands(line: &mut Line, op: Op)
    requires fits { FitsOp op }
    requires room { length line.old + 68 ≤ 256 }
    ensures is { line.new ≡ line.old ++ bytes_of (operands_atoms (branch_operands op)) }
    ensures short { length line.new ≤ length line.old + 68 }
{
    match op {
        Op::Branch { field, .. } => put_operand(line, target(1_048_576, field)),
        Op::Callp { side, field } => {
            put_pair(line, target(1_048_576, field), register_at(side, 3))
        }
        Op::BranchNop { field, wait, .. } => {
            put_pair(line, target(2_048, u32::from(field)), count(wait))
        }
        Op::BranchReg { cross, source } => {
            put_operand(line, register_at(second_side(Side::B, cross), source))
        }
        Op::BranchRegNop {
            cross,
            source,
            wait,
        } => {
            let source = register_at(second_side(Side::B, cross), source);
            put_pair(line, source, count(wait))
        }
        Op::AddKpc { field, wait, dst } => {
            let dst = register_at(Side::B, dst);
            put_triple(line, target(64, u32::from(field)), dst, count(wait))
        }
        _ => {}
    }
}

/// Puts the operands of an instruction, in the order in which the assembler reads them.
#[tactic(auto, unfolding(crate::specs::Shown::operands_for), using(crate::proofs::Bytes::one_bytes))]
pub fn put_operands(line: &mut Line, op: Op)
    requires fits { FitsOp op }
    requires room { length line.old + 68 ≤ 256 }
    ensures is { line.new ≡ line.old ++ bytes_of (operands_atoms (operands_for op)) }
    ensures short { length line.new ≤ length line.old + 68 }
{
    match op {
        Op::Two {
            unit,
            arith,
            side,
            cross,
            first,
            second,
            dst,
        } => {
            let first = first_operand(unit, arith, side, first);
            let second = register_at(second_side(side, cross), second);
            let dst = register_at(side, dst);
            if is_swapped(unit, arith) {
                put_triple(line, second, first, dst);
            } else {
                put_triple(line, first, second, dst);
            }
        }
        Op::Move {
            kind,
            side,
            constant: bits,
            dst,
        } => put_pair(
            line,
            constant(move_number(kind, bits)),
            register_at(side, dst),
        ),
        Op::Nop { cycles } => put_operand(line, count(cycles)),
        Op::Short { .. } | Op::Long { .. } => put_access_operands(line, op),
        Op::Branch { .. }
        | Op::Callp { .. }
        | Op::BranchNop { .. }
        | Op::BranchReg { .. }
        | Op::BranchRegNop { .. }
        | Op::AddKpc { .. } => put_branch_operands(line, op),
    }
}
