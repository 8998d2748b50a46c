ghost use Rattle.std.specs.Prelude.{◌≡◌, Option, nat_eq, if◌then◌else◌};
ghost use Rattle.c6x_spec.specs.Fields.{bits_of};
ghost use Rattle.c6x_encoding.specs.Groups.{form_by, tree, even_tree, constant_tree, displacement_tree, l_tree, s_tree, d_tree, m_tree};

use crate::arith::Arith;
use crate::form::Form;
use crate::move_kind::MoveKind;
use crate::unit_kind::UnitKind;
use c6x_base::bits;

/// The form that a word has, if it spells an instruction at all.
#[tactic(auto, unfolding(crate::specs::Groups::tree))]
pub fn form(word: u32) -> Option<Form>
    ensures { result ≡ form_by tree word }
{
    match bits(word, 2, 2) {
        0b00 => even_form(word),
        0b01 => Some(Form::Short),
        0b10 => constant_form(word),
        _ => Some(Form::Long),
    }
}

#[tactic(auto, unfolding(crate::specs::Groups::even_tree))]
fn even_form(word: u32) -> Option<Form>
    ensures { result ≡ form_by even_tree word }
{
    if bits(word, 2, 3) == 0b100 {
        displacement_form(word)
    } else if bits(word, 5, 1) == 1 {
        s_form(word)
    } else if bits(word, 6, 1) == 1 {
        d_form(word)
    } else {
        m_form(word)
    }
}

#[tactic(auto, unfolding(crate::specs::Groups::displacement_tree))]
fn displacement_form(word: u32) -> Option<Form>
    ensures { result ≡ form_by displacement_tree word }
{
    match bits(word, 5, 2) {
        0b00 => Some(if bits(word, 28, 4) == 1 {
            Form::Callp
        } else {
            Form::Branch
        }),
        0b10 => Some(Form::Move(MoveKind::Addk)),
        _ => None,
    }
}

#[tactic(auto, unfolding(crate::specs::Groups::constant_tree))]
fn constant_form(word: u32) -> Option<Form>
    ensures { result ≡ form_by constant_tree word }
{
    if bits(word, 4, 1) == 1 {
        return l_form(word);
    }
    match bits(word, 4, 3) {
        0b010 => Some(Form::Move(MoveKind::Mvk)),
        0b110 => Some(Form::Move(MoveKind::Mvkh)),
        _ => None,
    }
}

#[tactic(auto, unfolding(crate::specs::Groups::l_tree))]
fn l_form(word: u32) -> Option<Form>
    ensures { result ≡ form_by l_tree word }
{
    match bits(word, 5, 7) {
        0x03 => two(UnitKind::L, Arith::Add, false),
        0x02 => two(UnitKind::L, Arith::Add, true),
        0x07 => two(UnitKind::L, Arith::Sub, false),
        0x06 => two(UnitKind::L, Arith::Sub, true),
        0x7B => two(UnitKind::L, Arith::And, false),
        0x7A => two(UnitKind::L, Arith::And, true),
        0x7F => two(UnitKind::L, Arith::Or, false),
        0x7E => two(UnitKind::L, Arith::Or, true),
        0x6F => two(UnitKind::L, Arith::Xor, false),
        0x6E => two(UnitKind::L, Arith::Xor, true),
        0x53 => two(UnitKind::L, Arith::CmpEq, false),
        0x52 => two(UnitKind::L, Arith::CmpEq, true),
        0x47 => two(UnitKind::L, Arith::CmpGt, false),
        0x46 => two(UnitKind::L, Arith::CmpGt, true),
        0x57 => two(UnitKind::L, Arith::CmpLt, false),
        0x56 => two(UnitKind::L, Arith::CmpLt, true),
        0x4F => two(UnitKind::L, Arith::CmpGtu, false),
        0x5F => two(UnitKind::L, Arith::CmpLtu, false),
        _ => None,
    }
}

#[tactic(auto, unfolding(crate::specs::Groups::s_tree))]
fn s_form(word: u32) -> Option<Form>
    ensures { result ≡ form_by s_tree word }
{
    match bits(word, 6, 6) {
        0x07 => two(UnitKind::S, Arith::Add, false),
        0x06 => two(UnitKind::S, Arith::Add, true),
        0x17 => two(UnitKind::S, Arith::Sub, false),
        0x16 => two(UnitKind::S, Arith::Sub, true),
        0x1F => two(UnitKind::S, Arith::And, false),
        0x1E => two(UnitKind::S, Arith::And, true),
        0x1B => two(UnitKind::S, Arith::Or, false),
        0x1A => two(UnitKind::S, Arith::Or, true),
        0x0B => two(UnitKind::S, Arith::Xor, false),
        0x0A => two(UnitKind::S, Arith::Xor, true),
        0x33 => two(UnitKind::S, Arith::Shl, false),
        0x32 => two(UnitKind::S, Arith::Shl, true),
        0x37 => two(UnitKind::S, Arith::Shr, false),
        0x36 => two(UnitKind::S, Arith::Shr, true),
        0x27 => two(UnitKind::S, Arith::Shru, false),
        0x26 => two(UnitKind::S, Arith::Shru, true),
        0x04 => Some(Form::BranchNop),
        0x05 => Some(Form::AddKpc),
        0x0D => Some(register_branch(word)),
        _ => None,
    }
}

/// B or BNOP to a register; the bits of dst tell them apart.
fn register_branch(word: u32) -> Form
    ensures { Some result ≡ (if nat_eq (bits_of word 23 5) 0 then Some Form.BranchReg else Some Form.BranchRegNop) }
{
    if bits(word, 23, 5) == 0 {
        Form::BranchReg
    } else {
        Form::BranchRegNop
    }
}

#[tactic(auto, unfolding(crate::specs::Groups::d_tree))]
fn d_form(word: u32) -> Option<Form>
    ensures { result ≡ form_by d_tree word }
{
    match bits(word, 7, 6) {
        0x10 => two(UnitKind::D, Arith::Add, false),
        0x12 => two(UnitKind::D, Arith::Add, true),
        0x11 => two(UnitKind::D, Arith::Sub, false),
        0x13 => two(UnitKind::D, Arith::Sub, true),
        _ => None,
    }
}

#[tactic(auto, unfolding(crate::specs::Groups::m_tree))]
fn m_form(word: u32) -> Option<Form>
    ensures { result ≡ form_by m_tree word }
{
    match bits(word, 7, 5) {
        0x19 => two(UnitKind::M, Arith::Mpy, false),
        0x18 => two(UnitKind::M, Arith::Mpy, true),
        0x1F => two(UnitKind::M, Arith::Mpyu, false),
        0x00 => Some(Form::Nop),
        _ => None,
    }
}

fn two(unit: UnitKind, arith: Arith, constant: bool) -> Option<Form>
    ensures { result ≡ Some (Form.Two unit arith constant) }
{
    Some(Form::Two {
        unit,
        arith,
        constant,
    })
}
