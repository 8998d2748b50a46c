ghost use Rattle.std.specs.Prelude.{◌≡◌};
ghost use Rattle.c6x_asm_lines.specs.Grammar.{is_name, read_label, read_parallel_bars, cond_reg_of, condition_on, read_condition, read_word, read_unit, is_dotted, read_head};

use crate::lexeme::Lexeme;
use crate::punctuator::Punctuator;
use crate::register::Register;
use crate::remaining::Remaining;
use crate::statement_head::StatementHead;
use crate::word::{Word, WordClass};
use c6x_base::Side;
use c6x_base::limits::MOST_NAME_BYTES;
use c6x_encoding::{Cond, CondReg};

fn is_name(word: Word) -> bool
    ensures { result ≡ is_name word.class word }
{
    match word.class {
        WordClass::Register(_) => false,
        _ => word.len <= MOST_NAME_BYTES,
    }
}

/// A label with its colon, if one is next.
#[tactic(auto, unfolding(crate::specs::Grammar::read_label))]
pub fn read_label<'t>(lexemes: &'t [Lexeme]) -> Option<(Option<Word>, Remaining<'t>)>
    ensures { result ≡ read_label lexemes.now }
{
    match lexemes {
        [
            Lexeme::Word(word),
            Lexeme::Punctuator(Punctuator::Colon),
            rest @ ..,
        ] => {
            if is_name(*word) {
                Some((Some(*word), Remaining::of(rest)))
            } else {
                None
            }
        }
        _ => Some((None, Remaining::of(lexemes))),
    }
}

fn read_parallel_bars<'t>(lexemes: &'t [Lexeme]) -> (bool, Remaining<'t>)
    ensures { result ≡ read_parallel_bars lexemes.now }
{
    match lexemes {
        [Lexeme::Punctuator(Punctuator::ParallelBars), rest @ ..] => (true, Remaining::of(rest)),
        _ => (false, Remaining::of(lexemes)),
    }
}

fn cond_reg_of(register: Register) -> Option<CondReg>
    ensures { result ≡ cond_reg_of register }
{
    match (register.side, register.number) {
        (Side::A, 0) => Some(CondReg::A0),
        (Side::A, 1) => Some(CondReg::A1),
        (Side::A, 2) => Some(CondReg::A2),
        (Side::B, 0) => Some(CondReg::B0),
        (Side::B, 1) => Some(CondReg::B1),
        (Side::B, 2) => Some(CondReg::B2),
        _ => None,
    }
}

fn condition_on(class: WordClass, zero: bool) -> Option<Cond>
    ensures { result ≡ condition_on class zero }
{
    match class {
        WordClass::Register(register) => {
            let register = cond_reg_of(register)?;
            Some(Cond::If { register, zero })
        }
        _ => None,
    }
}

#[tactic(auto, unfolding(crate::specs::Grammar::read_condition))]
fn read_condition<'t>(lexemes: &'t [Lexeme]) -> Option<(Cond, Remaining<'t>)>
    ensures { result ≡ read_condition lexemes.now }
{
    match lexemes {
        [
            Lexeme::Punctuator(Punctuator::LeftBracket),
            Lexeme::Punctuator(Punctuator::Bang),
            Lexeme::Word(word),
            Lexeme::Punctuator(Punctuator::RightBracket),
            rest @ ..,
        ] => {
            let condition = condition_on(word.class, true)?;
            Some((condition, Remaining::of(rest)))
        }
        [
            Lexeme::Punctuator(Punctuator::LeftBracket),
            Lexeme::Word(word),
            Lexeme::Punctuator(Punctuator::RightBracket),
            rest @ ..,
        ] => {
            let condition = condition_on(word.class, false)?;
            Some((condition, Remaining::of(rest)))
        }
        [Lexeme::Punctuator(Punctuator::LeftBracket), ..] => None,
        _ => Some((Cond::Always, Remaining::of(lexemes))),
    }
}

fn read_word<'t>(lexemes: &'t [Lexeme]) -> Option<(Word, Remaining<'t>)>
    ensures { result ≡ read_word lexemes.now }
{
    match lexemes {
        [Lexeme::Word(word), rest @ ..] => Some((*word, Remaining::of(rest))),
        _ => None,
    }
}

fn read_unit<'t>(class: WordClass, lexemes: &'t [Lexeme]) -> Option<(Option<Word>, Remaining<'t>)>
    ensures { result ≡ read_unit class lexemes.now }
{
    match class {
        WordClass::Dotted | WordClass::Nop => Some((None, Remaining::of(lexemes))),
        _ => {
            let (word, rest) = read_word(lexemes)?;
            match word.class {
                WordClass::Dotted => Some((Some(word), rest)),
                _ => None,
            }
        }
    }
}

fn is_dotted(class: WordClass) -> bool
    ensures { result ≡ is_dotted class }
{
    matches!(class, WordClass::Dotted)
}

/// What stands before the operands.
#[tactic(auto, unfolding(crate::specs::Grammar::read_head))]
pub fn read_head<'t>(lexemes: &'t [Lexeme]) -> Option<(StatementHead, Remaining<'t>)>
    ensures { result ≡ read_head lexemes.now }
{
    let (chained, rest) = read_parallel_bars(lexemes);
    let (condition, rest) = read_condition(rest.lexemes())?;
    let (word, rest) = read_word(rest.lexemes())?;
    let (unit, rest) = read_unit(word.class, rest.lexemes())?;
    let marked = chained || condition != Cond::Always;
    if is_dotted(word.class) && marked {
        return None;
    }
    Some((
        StatementHead {
            chained,
            condition,
            word,
            unit,
        },
        rest,
    ))
}
