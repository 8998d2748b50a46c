ghost use Rattle.std.specs.Prelude.{◌≡◌, ◌+◌, ◌≤◌, ◌++◌, ◌∷◌, [], length};
ghost use Rattle.c6x_asm_lines.specs.declared.operand.Operand.TheVariants.{Address as AddressOperand};
ghost use Rattle.c6x_dis.specs.Atoms.{bytes_of};
ghost use Rattle.c6x_dis.specs.Shown.{register_word, size_bytes, number_atoms, value_atoms, signs_before, signs_behind, base_atoms, offset_atoms, operand_atoms, operands_atoms};

use c6x_asm_lines::{Address, Mode, Number, Offset, Operand, Primary, Register, Value};
use c6x_base::{Line, Side};
use itoa::Buffer;

/// Puts the name of a register.
pub fn put_register(line: &mut Line, register: Register)
    requires { length line.old + 4 ≤ 256 }
    ensures is { line.new ≡ line.old ++ register_word register }
    ensures short { length line.new ≤ length line.old + 4 }
{
    match register.side {
        Side::A => line.push(b"A"),
        Side::B => line.push(b"B"),
    }
    let mut number = Buffer::new();
    line.push(number.format(register.number).as_bytes());
}

/// Puts the digits of a number.
fn put_size(line: &mut Line, size: Option<u32>)
    requires { length line.old + 10 ≤ 256 }
    ensures is { line.new ≡ line.old ++ size_bytes size }
    ensures short { length line.new ≤ length line.old + 10 }
{
    if let Some(size) = size {
        let mut number = Buffer::new();
        line.push(number.format(size).as_bytes());
    }
}

fn put_number(line: &mut Line, number: Number)
    requires { length line.old + 11 ≤ 256 }
    ensures is { line.new ≡ line.old ++ bytes_of (number_atoms number) }
    ensures short { length line.new ≤ length line.old + 11 }
{
    if number.negative {
        line.push(b"-");
    }
    put_size(line, number.size);
}

fn put_value(line: &mut Line, value: Value)
    requires { length line.old + 11 ≤ 256 }
    ensures is { line.new ≡ line.old ++ bytes_of (value_atoms value) }
    ensures short { length line.new ≤ length line.old + 11 }
{
    match value {
        Value::Primary(Primary::Register(register)) => put_register(line, register),
        Value::Primary(Primary::Number(number)) => put_number(line, number),
        _ => {}
    }
}

fn put_signs_before(line: &mut Line, mode: Mode)
    requires { length line.old + 2 ≤ 256 }
    ensures is { line.new ≡ line.old ++ bytes_of (signs_before mode) }
    ensures short { length line.new ≤ length line.old + 2 }
{
    match mode {
        Mode::Negative => line.push(b"-"),
        Mode::Positive => line.push(b"+"),
        Mode::PreDecrement => line.push(b"--"),
        Mode::PreIncrement => line.push(b"++"),
        Mode::PostDecrement | Mode::PostIncrement => {}
    }
}

fn put_signs_behind(line: &mut Line, mode: Mode)
    requires { length line.old + 2 ≤ 256 }
    ensures is { line.new ≡ line.old ++ bytes_of (signs_behind mode) }
    ensures short { length line.new ≤ length line.old + 2 }
{
    match mode {
        Mode::PostDecrement => line.push(b"--"),
        Mode::PostIncrement => line.push(b"++"),
        _ => {}
    }
}

fn put_base(line: &mut Line, base: Option<Register>)
    requires { length line.old + 4 ≤ 256 }
    ensures is { line.new ≡ line.old ++ bytes_of (base_atoms base) }
    ensures short { length line.new ≤ length line.old + 4 }
{
    if let Some(register) = base {
        put_register(line, register);
    }
}

fn put_offset(line: &mut Line, offset: Offset)
    requires { length line.old + 13 ≤ 256 }
    ensures is { line.new ≡ line.old ++ bytes_of (offset_atoms offset) }
    ensures short { length line.new ≤ length line.old + 13 }
{
    match offset {
        Offset::Missing => {}
        Offset::Bracket(value) => {
            line.push(b"[");
            put_value(line, value);
            line.push(b"]");
        }
        Offset::Parenthesis(value) => {
            line.push(b"(");
            put_value(line, value);
            line.push(b")");
        }
    }
}

#[tactic(auto, unfolding(crate::specs::Shown::operand_atoms), using(crate::proofs::Bytes::bytes_joined))]
fn put_address(line: &mut Line, address: Address)
    requires { length line.old + 22 ≤ 256 }
    ensures is { line.new ≡ line.old ++ bytes_of (operand_atoms (AddressOperand address)) }
    ensures short { length line.new ≤ length line.old + 22 }
{
    line.push(b"*");
    put_signs_before(line, address.mode);
    put_base(line, address.base);
    put_signs_behind(line, address.mode);
    put_offset(line, address.offset);
}

/// Puts an operand that an instruction may have.
#[tactic(auto, unfolding(crate::specs::Shown::operand_atoms))]
pub fn put_operand(line: &mut Line, operand: Operand)
    requires { length line.old + 22 ≤ 256 }
    ensures is { line.new ≡ line.old ++ bytes_of (operand_atoms operand) }
    ensures short { length line.new ≤ length line.old + 22 }
{
    match operand {
        Operand::Address(address) => put_address(line, address),
        Operand::Value(value) => put_value(line, value),
        Operand::Text { .. } => {}
    }
}

/// Puts two operands with a comma between them.
pub fn put_pair(line: &mut Line, first: Operand, second: Operand)
    requires { length line.old + 45 ≤ 256 }
    ensures is { line.new ≡ line.old ++ bytes_of (operands_atoms (first ∷ second ∷ [])) }
    ensures short { length line.new ≤ length line.old + 45 }
{
    put_operand(line, first);
    line.push(b",");
    put_operand(line, second);
}

/// Puts three operands with commas between them.
pub fn put_triple(line: &mut Line, first: Operand, second: Operand, third: Operand)
    requires { length line.old + 68 ≤ 256 }
    ensures is { line.new ≡ line.old ++ bytes_of (operands_atoms (first ∷ second ∷ third ∷ [])) }
    ensures short { length line.new ≤ length line.old + 68 }
{
    put_operand(line, first);
    line.push(b",");
    put_pair(line, second, third);
}
