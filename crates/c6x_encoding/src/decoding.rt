ghost use Rattle.std.specs.Prelude.{◌≡◌, ◌↔◌, ◌+◌, ◌<◌, ◌/◌, ◌%◌, nat_eq, IfSome, ℕ};
ghost use Rattle.c6x_spec.specs.Fields.{bits_of};
ghost use Rattle.c6x_encoding.specs.declared.instr.Instr.{Instr};
ghost use Rattle.c6x_encoding.specs.Spelling.{IsValid, Spells};
ghost use Rattle.c6x_encoding.specs.Decoded.{access_from, condition_from, condition_made, cross_at, decoded, first_from, is_set, made, op_made, side_at};

use crate::access::Access;
use crate::cond::Cond;
use crate::cond_reg::CondReg;
use crate::first::First;
use crate::form::Form;
use crate::groups::form;
use crate::instr::Instr;
use crate::op::Op;
use crate::rests::is_of_row;
use crate::unit_kind::UnitKind;
use c6x_base::{Side, bits};

/// The instruction that the word spells, and None exactly where no row of the table spells it
/// (SPRU732, "Instruction Descriptions" and the opcode maps). The work is the same for every word:
/// its form, what is left of the form's row, and its fields.
pub fn decode(word: u32) -> Option<Instr>
    ensures spelled { (i : Instr) → (result ≡ Some i) ↔ Spells i word }
    ensures value { result ≡ decoded word }
    ensures valid { IfSome result IsValid }
{
    let form = form(word)?;
    if is_of_row(form, word) {
        Some(instruction(form, word))
    } else {
        None
    }
}

/// The instruction of this form with the word's fields.
fn instruction(form: Form, word: u32) -> Instr
    ensures { result ≡ made form word }
{
    Instr {
        condition: condition(form, word),
        op: operation(form, word),
        chained: bits(word, 0, 1) == 1,
    }
}

/// The operation of this form with the word's fields.
fn operation(form: Form, word: u32) -> Op
    ensures { result ≡ op_made form word }
{
    let wait = bits(word, 13, 3) as u8;
    match form {
        Form::Two {
            unit,
            arith,
            constant,
        } => Op::Two {
            unit,
            arith,
            side: side(word, 1),
            cross: cross(unit, word),
            first: first(constant, word),
            second: bits(word, 18, 5) as u8,
            dst: bits(word, 23, 5) as u8,
        },
        Form::Move(kind) => Op::Move {
            kind,
            side: side(word, 1),
            constant: bits(word, 7, 16) as u16,
            dst: bits(word, 23, 5) as u8,
        },
        Form::Branch => Op::Branch {
            side: side(word, 1),
            field: bits(word, 7, 21),
        },
        Form::Callp => Op::Callp {
            side: side(word, 1),
            field: bits(word, 7, 21),
        },
        Form::BranchNop => Op::BranchNop {
            side: side(word, 1),
            field: bits(word, 16, 12) as u16,
            wait,
        },
        Form::BranchReg => Op::BranchReg {
            cross: bits(word, 12, 1) == 1,
            source: bits(word, 18, 5) as u8,
        },
        Form::BranchRegNop => Op::BranchRegNop {
            cross: bits(word, 12, 1) == 1,
            source: bits(word, 18, 5) as u8,
            wait,
        },
        Form::AddKpc => Op::AddKpc {
            field: bits(word, 16, 7) as u8,
            wait,
            dst: bits(word, 23, 5) as u8,
        },
        Form::Nop => Op::Nop {
            cycles: bits(word, 13, 4) as u8 + 1,
        },
        Form::Short => short(word),
        Form::Long => long(word),
    }
}

/// A short load or store.
fn short(word: u32) -> Op
    ensures { result ≡ op_made Form.Short word }
{
    Op::Short {
        access: access(bits(word, 4, 3)),
        unit_side: side(word, 7),
        value_side: side(word, 1),
        mode: bits(word, 9, 4) as u8,
        offset: bits(word, 13, 5) as u8,
        base: bits(word, 18, 5) as u8,
        register: bits(word, 23, 5) as u8,
    }
}

/// A long load or store.
fn long(word: u32) -> Op
    ensures { result ≡ op_made Form.Long word }
{
    Op::Long {
        access: access(bits(word, 4, 3)),
        value_side: side(word, 1),
        base15: bits(word, 7, 1) == 1,
        offset: bits(word, 8, 15) as u16,
        register: bits(word, 23, 5) as u8,
    }
}

/// The condition of this form with the word's creg and z.
fn condition(form: Form, word: u32) -> Cond
    ensures { result ≡ condition_made form (bits_of word 28 4) }
{
    match form {
        Form::Callp | Form::Nop => Cond::Always,
        _ => condition_of(bits(word, 28, 4)),
    }
}

fn condition_of(field: u32) -> Cond
    ensures { result ≡ condition_from (field / 2) (nat_eq (field % 2) 1) }
{
    let zero = field % 2 == 1;
    let register = match field / 2 {
        1 => CondReg::B0,
        2 => CondReg::B1,
        3 => CondReg::B2,
        4 => CondReg::A1,
        5 => CondReg::A2,
        6 => CondReg::A0,
        _ => return Cond::Always,
    };
    Cond::If { register, zero }
}

/// The side that a bit names.
fn side(word: u32, place: u32) -> Side
    requires { place < 32 }
    ensures { result ≡ side_at word place }
{
    if bits(word, place, 1) == 1 {
        Side::B
    } else {
        Side::A
    }
}

/// x, which .D does not have.
fn cross(unit: UnitKind, word: u32) -> bool
    ensures { result ≡ cross_at unit word }
{
    match unit {
        UnitKind::D => false,
        _ => bits(word, 12, 1) == 1,
    }
}

/// src1, as a constant or a register.
fn first(constant: bool, word: u32) -> First
    ensures { result ≡ first_from constant (bits_of word 13 5) }
{
    let number = bits(word, 13, 5) as u8;
    if constant {
        First::Constant(number)
    } else {
        First::Register(number)
    }
}

/// The load or store of an opcode.
fn access(code: u32) -> Access
    ensures { result ≡ access_from code }
{
    match code {
        0 => Access::Ldhu,
        1 => Access::Ldbu,
        2 => Access::Ldb,
        3 => Access::Stb,
        4 => Access::Ldh,
        5 => Access::Sth,
        6 => Access::Ldw,
        _ => Access::Stw,
    }
}
