ghost use Rattle.std.specs.Prelude.{◌≡◌};
ghost use Rattle.c6x_asm_lines.specs.Grammar.{read_number, read_addend, read_primary, read_value, close_bracket, close_parenthesis};

use crate::lexeme::Lexeme;
use crate::number::Number;
use crate::primary::Primary;
use crate::punctuator::Punctuator;
use crate::remaining::Remaining;
use crate::value::Value;
use crate::word::WordClass;
use c6x_base::limits::MOST_NAME_BYTES;

fn read_number<'t>(lexemes: &'t [Lexeme]) -> Option<(Number, Remaining<'t>)>
    ensures { result ≡ read_number lexemes.now }
{
    match lexemes {
        [Lexeme::Number(size), rest @ ..] => Some((
            Number {
                negative: false,
                size: *size,
            },
            Remaining::of(rest),
        )),
        [
            Lexeme::Punctuator(Punctuator::Minus),
            Lexeme::Number(size),
            rest @ ..,
        ] => Some((
            Number {
                negative: true,
                size: *size,
            },
            Remaining::of(rest),
        )),
        _ => None,
    }
}

// A sign and a number, or nothing.
fn read_addend<'t>(lexemes: &'t [Lexeme]) -> Option<(Option<Number>, Remaining<'t>)>
    ensures { result ≡ read_addend lexemes.now }
{
    match lexemes {
        [Lexeme::Punctuator(Punctuator::Plus), rest @ ..] => {
            let (number, rest) = read_number(rest)?;
            Some((Some(number), rest))
        }
        [Lexeme::Punctuator(Punctuator::Minus), rest @ ..] => {
            let (number, rest) = read_number(rest)?;
            Some((
                Some(Number {
                    negative: !number.negative,
                    size: number.size,
                }),
                rest,
            ))
        }
        _ => Some((None, Remaining::of(lexemes))),
    }
}

fn read_primary<'t>(lexemes: &'t [Lexeme]) -> Option<(Primary, Remaining<'t>)>
    ensures { result ≡ read_primary lexemes.now }
{
    match lexemes {
        [Lexeme::Word(word), rest @ ..] => match word.class {
            WordClass::Register(register) => Some((
                Primary::Register(register),
                Remaining::of(rest),
            )),
            _ => {
                if word.len > MOST_NAME_BYTES {
                    return None;
                }
                let (addend, rest) = read_addend(rest)?;
                Some((
                    Primary::Symbol {
                        name: *word,
                        addend,
                    },
                    rest,
                ))
            }
        },
        _ => {
            let (number, rest) = read_number(lexemes)?;
            Some((Primary::Number(number), rest))
        }
    }
}

/// What stands behind a `]`, if that is next.
pub fn close_bracket<'t>(lexemes: &'t [Lexeme]) -> Option<Remaining<'t>>
    ensures { result ≡ close_bracket lexemes.now }
{
    match lexemes {
        [Lexeme::Punctuator(Punctuator::RightBracket), rest @ ..] => Some(Remaining::of(rest)),
        _ => None,
    }
}

/// What stands behind a `)`, if that is next.
pub fn close_parenthesis<'t>(lexemes: &'t [Lexeme]) -> Option<Remaining<'t>>
    ensures { result ≡ close_parenthesis lexemes.now }
{
    match lexemes {
        [Lexeme::Punctuator(Punctuator::RightParenthesis), rest @ ..] => Some(Remaining::of(rest)),
        _ => None,
    }
}

/// A register, a number or a symbol, or one of these with a named kind.
#[tactic(auto, unfolding(crate::specs::Grammar::read_value))]
pub fn read_value<'t>(lexemes: &'t [Lexeme]) -> Option<(Value, Remaining<'t>)>
    ensures { result ≡ read_value lexemes.now }
{
    match lexemes {
        [
            Lexeme::Punctuator(Punctuator::Percent),
            Lexeme::Word(kind),
            Lexeme::Punctuator(Punctuator::LeftParenthesis),
            rest @ ..,
        ] => {
            let (inner, rest) = read_primary(rest)?;
            let rest = close_parenthesis(rest.lexemes())?;
            Some((
                Value::Kind {
                    kind: *kind,
                    inner: Some(inner),
                },
                rest,
            ))
        }
        [
            Lexeme::Punctuator(Punctuator::Percent),
            Lexeme::Word(kind),
            rest @ ..,
        ] => Some((
            Value::Kind {
                kind: *kind,
                inner: None,
            },
            Remaining::of(rest),
        )),
        _ => {
            let (plain, rest) = read_primary(lexemes)?;
            Some((Value::Primary(plain), rest))
        }
    }
}
