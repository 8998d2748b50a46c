ghost use Rattle.std.specs.Prelude.{◌≡◌, ℕ, ◌+◌, ◌^◌, ◌<◌, ◌≤◌, List, ◌∷◌, length};
ghost use Rattle.c6x_asm_lines.specs.Lexemes.{side_of, one_digit, two_digits, register_of, is_nop, begins_with_dot, class_of, digit_of, digits_value, number_of, punctuator_of, first_of, lexeme_of};
ghost use Rattle.c6x_asm_lines.specs.Digits.{one_more};

use crate::lexeme::Lexeme;
use crate::punctuator::Punctuator;
use crate::register::Register;
use crate::word::{Word, WordClass};
use c6x_base::Side;
use c6x_lex::{Token, TokenKind};

fn side_of(b: u8) -> Option<Side>
    ensures { result ≡ side_of b }
{
    match b {
        b'A' | b'a' => Some(Side::A),
        b'B' | b'b' => Some(Side::B),
        _ => None,
    }
}

fn one_digit(d: u8) -> Option<u8>
    ensures { result ≡ one_digit d }
{
    if d >= b'0' && d <= b'9' {
        Some(d - b'0')
    } else {
        None
    }
}

fn two_digits(t: u8, d: u8) -> Option<u8>
    ensures { result ≡ two_digits t d }
{
    if (t == b'1' || t == b'2') && (d >= b'0' && d <= b'9') {
        Some(10 * (t - b'0') + (d - b'0'))
    } else if t == b'3' && (d == b'0' || d == b'1') {
        Some(30 + (d - b'0'))
    } else {
        None
    }
}

#[tactic(auto, unfolding(crate::specs::Lexemes::register_of))]
fn register_of(bytes: &[u8]) -> Option<Register>
    ensures { result ≡ register_of bytes.now }
{
    match bytes {
        [s, d] => {
            let side = side_of(*s)?;
            let number = one_digit(*d)?;
            Some(Register { side, number })
        }
        [s, t, d] => {
            let side = side_of(*s)?;
            let number = two_digits(*t, *d)?;
            Some(Register { side, number })
        }
        _ => None,
    }
}

fn is_nop(bytes: &[u8]) -> bool
    ensures { result ≡ is_nop bytes.now }
{
    match bytes {
        [n, o, p] => (*n == b'N' || *n == b'n')
            && ((*o == b'O' || *o == b'o') && (*p == b'P' || *p == b'p')),
        _ => false,
    }
}

fn begins_with_dot(bytes: &[u8]) -> bool
    ensures { result ≡ begins_with_dot bytes.now }
{
    match bytes {
        [] => false,
        [first, ..] => *first == b'.',
    }
}

#[tactic(auto, unfolding(crate::specs::Lexemes::class_of))]
fn class_of(bytes: &[u8]) -> WordClass
    ensures { result ≡ class_of bytes.now }
{
    match register_of(bytes) {
        Some(register) => WordClass::Register(register),
        None => {
            if begins_with_dot(bytes) {
                WordClass::Dotted
            } else if is_nop(bytes) {
                WordClass::Nop
            } else {
                WordClass::Other
            }
        }
    }
}

fn digit_of(b: u8) -> u32
    ensures digit { result ≡ digit_of b }
    ensures small { result < 256 }
{
    if b >= b'0' && b <= b'9' {
        u32::from(b - b'0')
    } else if b >= b'a' {
        u32::from(b - 87)
    } else {
        u32::from(b.saturating_sub(55))
    }
}

// One more digit behind the number so far, which is None once it is too large.
fn one_more(base: u32, value: Option<u32>, b: u8) -> Option<u32>
    requires { base ≤ 16 }
    ensures { result ≡ one_more base value b }
{
    match value {
        None => None,
        Some(n) => {
            let next = u64::from(n) * u64::from(base) + u64::from(digit_of(b));
            if next < 4_294_967_296 {
                Some(next as u32)
            } else {
                None
            }
        }
    }
}

#[tactic(auto, using(crate::proofs::DigitLemmas::digits_value_is))]
fn digits_value(base: u32, digits: &[u8]) -> Option<u32>
    requires { (1 ≤ base) × (base ≤ 16) }
    ensures { result ≡ digits_value base digits.now }
{
    let mut value = Some(0);
    for digit in digits {
        value = one_more(base, value, *digit);
    }
    value
}

#[tactic(auto, unfolding(crate::specs::Lexemes::number_of))]
fn number_of(bytes: &[u8]) -> Option<u32>
    ensures { result ≡ number_of bytes.now }
{
    match bytes {
        [_, x, digits @ ..] => {
            if *x == b'x' {
                digits_value(16, digits)
            } else {
                digits_value(10, bytes)
            }
        }
        _ => digits_value(10, bytes),
    }
}

#[tactic(auto, unfolding(crate::specs::Lexemes::punctuator_of))]
fn punctuator_of(b: u8) -> Punctuator
    ensures { result ≡ punctuator_of b }
{
    match b {
        b':' => Punctuator::Colon,
        b',' => Punctuator::Comma,
        b'[' => Punctuator::LeftBracket,
        b']' => Punctuator::RightBracket,
        b'(' => Punctuator::LeftParenthesis,
        b')' => Punctuator::RightParenthesis,
        b'*' => Punctuator::Star,
        b'+' => Punctuator::Plus,
        b'-' => Punctuator::Minus,
        b'!' => Punctuator::Bang,
        b'%' => Punctuator::Percent,
        _ => Punctuator::ParallelBars,
    }
}

fn first_of(bytes: &[u8]) -> u8
    ensures { result ≡ first_of bytes.now }
{
    match bytes {
        [] => 0,
        [first, ..] => *first,
    }
}

/// What a token of this text stands for; None at the end of a line.
#[tactic(auto, unfolding(crate::specs::Lexemes::lexeme_of))]
pub fn lexeme_of(text: &[u8], token: Token) -> Option<Lexeme>
    requires inside { token.at + token.len ≤ length text.now }
    requires small { length text.now < 2 ^ 32 }
    requires some { 1 ≤ token.len }
    ensures { result ≡ lexeme_of text.now token }
{
    let bytes = &text[token.at as usize..token.at as usize + token.len as usize];
    match token.kind {
        TokenKind::Word => Some(Lexeme::Word(Word {
            at: token.at,
            len: token.len,
            class: class_of(bytes),
        })),
        TokenKind::Number => Some(Lexeme::Number(number_of(bytes))),
        TokenKind::Text => Some(Lexeme::Text {
            at: token.at + 1,
            len: token.len.saturating_sub(2),
        }),
        TokenKind::Punctuator => Some(Lexeme::Punctuator(punctuator_of(first_of(bytes)))),
        TokenKind::NewLine => None,
    }
}
