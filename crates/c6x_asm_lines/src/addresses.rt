ghost use Rattle.std.specs.Prelude.{◌≡◌};
ghost use Rattle.c6x_asm_lines.specs.Grammar.{read_modifier, read_base, read_offset, mode_of, read_address};

use crate::address::Address;
use crate::base_modifier::BaseModifier;
use crate::lexeme::Lexeme;
use crate::mode::Mode;
use crate::offset::Offset;
use crate::parts::{close_bracket, close_parenthesis, read_value};
use crate::punctuator::Punctuator;
use crate::register::Register;
use crate::remaining::Remaining;
use crate::word::WordClass;
use c6x_base::limits::MOST_NAME_BYTES;

fn read_modifier<'t>(lexemes: &'t [Lexeme]) -> (BaseModifier, Remaining<'t>)
    ensures { result ≡ read_modifier lexemes.now }
{
    match lexemes {
        [
            Lexeme::Punctuator(Punctuator::Plus),
            Lexeme::Punctuator(Punctuator::Plus),
            rest @ ..,
        ] => (BaseModifier::PlusPlus, Remaining::of(rest)),
        [Lexeme::Punctuator(Punctuator::Plus), rest @ ..] => (
            BaseModifier::Plus,
            Remaining::of(rest),
        ),
        [
            Lexeme::Punctuator(Punctuator::Minus),
            Lexeme::Punctuator(Punctuator::Minus),
            rest @ ..,
        ] => (BaseModifier::MinusMinus, Remaining::of(rest)),
        [Lexeme::Punctuator(Punctuator::Minus), rest @ ..] => (
            BaseModifier::Minus,
            Remaining::of(rest),
        ),
        _ => (BaseModifier::Unmodified, Remaining::of(lexemes)),
    }
}

fn read_base<'t>(lexemes: &'t [Lexeme]) -> Option<(Option<Register>, Remaining<'t>)>
    ensures { result ≡ read_base lexemes.now }
{
    match lexemes {
        [Lexeme::Word(word), rest @ ..] => match word.class {
            WordClass::Register(register) => Some((Some(register), Remaining::of(rest))),
            _ => {
                if word.len > MOST_NAME_BYTES {
                    return None;
                }
                Some((None, Remaining::of(rest)))
            }
        },
        _ => None,
    }
}

#[tactic(auto, unfolding(crate::specs::Grammar::read_offset))]
fn read_offset<'t>(lexemes: &'t [Lexeme]) -> Option<(Offset, Remaining<'t>)>
    ensures { result ≡ read_offset lexemes.now }
{
    match lexemes {
        [Lexeme::Punctuator(Punctuator::LeftBracket), rest @ ..] => {
            let (value, rest) = read_value(rest)?;
            let rest = close_bracket(rest.lexemes())?;
            Some((Offset::Bracket(value), rest))
        }
        [Lexeme::Punctuator(Punctuator::LeftParenthesis), rest @ ..] => {
            let (value, rest) = read_value(rest)?;
            let rest = close_parenthesis(rest.lexemes())?;
            Some((Offset::Parenthesis(value), rest))
        }
        _ => Some((Offset::Missing, Remaining::of(lexemes))),
    }
}

fn mode_of(before: BaseModifier, behind: BaseModifier, offset: Offset) -> Option<Mode>
    ensures { result ≡ mode_of before behind offset }
{
    match (before, behind, offset) {
        (BaseModifier::Unmodified, BaseModifier::Unmodified, Offset::Missing) => Some(
            Mode::Positive,
        ),
        (
            BaseModifier::Plus,
            BaseModifier::Unmodified,
            Offset::Bracket(_) | Offset::Parenthesis(_),
        ) => Some(Mode::Positive),
        (BaseModifier::Minus, BaseModifier::Unmodified, Offset::Bracket(_)) => Some(Mode::Negative),
        (
            BaseModifier::MinusMinus,
            BaseModifier::Unmodified,
            Offset::Missing | Offset::Bracket(_),
        ) => Some(Mode::PreDecrement),
        (BaseModifier::PlusPlus, BaseModifier::Unmodified, Offset::Missing | Offset::Bracket(_)) =>
            Some(Mode::PreIncrement),
        (
            BaseModifier::Unmodified,
            BaseModifier::MinusMinus,
            Offset::Missing | Offset::Bracket(_),
        ) => Some(Mode::PostDecrement),
        (BaseModifier::Unmodified, BaseModifier::PlusPlus, Offset::Missing | Offset::Bracket(_)) =>
            Some(Mode::PostIncrement),
        _ => None,
    }
}

/// What follows the `*` of an address.
#[tactic(auto, unfolding(crate::specs::Grammar::read_address))]
pub fn read_address<'t>(lexemes: &'t [Lexeme]) -> Option<(Address, Remaining<'t>)>
    ensures { result ≡ read_address lexemes.now }
{
    let (before, rest) = read_modifier(lexemes);
    let (base, rest) = read_base(rest.lexemes())?;
    let (behind, rest) = read_modifier(rest.lexemes());
    let (offset, rest) = read_offset(rest.lexemes())?;
    let mode = mode_of(before, behind, offset)?;
    Some((Address { base, mode, offset }, rest))
}
