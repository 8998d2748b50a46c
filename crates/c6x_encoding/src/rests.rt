ghost use Rattle.std.specs.Prelude.{◌≡◌, ◌&&◌, nat_eq};
ghost use Rattle.c6x_spec.specs.Fields.{bits_of};
ghost use Rattle.c6x_encoding.specs.Spelling.{is_part, Condition, Count, Mode};
ghost use Rattle.c6x_encoding.specs.Left.{all_hold, is_of_row, left_bits, may_hold, unit_bits};

use crate::form::Form;
use crate::unit_kind::UnitKind;
use crate::words::is_mode;
use c6x_base::bits;

/// Whether a word that the groups lead to the form is of its row: the fixed bits that none of the tests that it met has
/// said, and what its fields hold.
pub fn is_of_row(form: Form, word: u32) -> bool
    ensures { result ≡ is_of_row form word }
{
    has_left_bits(form, word) && may_hold(form, word)
}

/// Whether the word has the other fixed bits of the form's row.
fn has_left_bits(form: Form, word: u32) -> bool
    ensures { result ≡ all_hold (left_bits form) word }
{
    match form {
        Form::Two { unit, .. } => has_unit_bits(unit, word),
        Form::BranchNop => bits(word, 12, 1) == 0 && bits(word, 4, 1) == 0,
        Form::BranchReg => {
            bits(word, 13, 5) == 0 && bits(word, 4, 1) == 0 && bits(word, 1, 1) == 1
        }
        Form::BranchRegNop => {
            bits(word, 23, 5) == 1
                && bits(word, 16, 2) == 0
                && bits(word, 4, 1) == 0
                && bits(word, 1, 1) == 1
        }
        Form::AddKpc => { bits(word, 12, 1) == 0 && bits(word, 4, 1) == 0 && bits(word, 1, 1) == 1 }
        Form::Nop => bits(word, 17, 15) == 0 && bits(word, 1, 12) == 0,
        Form::Short => bits(word, 8, 1) == 0,
        Form::Long => bits(word, 2, 2) == 3,
        _ => true,
    }
}

/// The same, of an operation of a unit.
fn has_unit_bits(unit: UnitKind, word: u32) -> bool
    ensures { result ≡ all_hold (unit_bits unit) word }
{
    match unit {
        UnitKind::L => true,
        UnitKind::S => bits(word, 4, 1) == 0,
        UnitKind::D => bits(word, 4, 2) == 0,
        UnitKind::M => bits(word, 4, 3) == 0,
    }
}

/// Whether the fields hold what they may.
fn may_hold(form: Form, word: u32) -> bool
    ensures { result ≡ may_hold form word }
{
    match form {
        Form::Callp => true,
        Form::Nop => bits(word, 13, 4) < 9,
        Form::Short => is_mode(bits(word, 9, 4) as u8) && is_condition(word),
        _ => is_condition(word),
    }
}

/// Whether creg with z stands for a condition.
fn is_condition(word: u32) -> bool
    ensures { result ≡ is_part Condition (bits_of word 28 4) }
{
    let field = bits(word, 28, 4);
    field < 14 && field != 1
}
