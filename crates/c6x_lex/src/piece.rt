ghost use Rattle.std.specs.Prelude.{◌≡◌, ◌≢◌, ◌+◌, ◌<◌, ◌≤◌, true, false, length, ◌∷◌, IfSome};
ghost use Rattle.c6x_lex.specs.Forms.{starts_word, is_digit, is_punctuator};
ghost use Rattle.c6x_lex.specs.Classes.{begins_with, hex_len};
ghost use Rattle.c6x_lex.specs.Tokens.{longest_token, piece_after};

use crate::bytes::{Class, comment_len, front_len, is_blank, is_digit, is_punctuator, starts_word};
use crate::cut::Piece;
use crate::kind::TokenKind;

fn begins_with(b: u8, bytes: &[u8]) -> bool
    ensures is { result ≡ begins_with b bytes.now }
    ensures some { result ≡ true → 1 ≤ length bytes.now }
{
    match bytes {
        [] => false,
        [first, ..] => *first == b,
    }
}

// How many hexadecimal digits stand behind an `x` at the front.
fn hex_len(bytes: &[u8]) -> usize
    ensures len { result ≡ hex_len bytes.now }
    ensures within { 0 < result → 1 + result ≤ length bytes.now }
{
    match bytes {
        [] => 0,
        [first, digits @ ..] => {
            if *first == b'x' {
                front_len(Class::HexDigit, digits)
            } else {
                0
            }
        }
    }
}

#[tactic(auto, using(crate::proofs::Longest::longest_hex, crate::proofs::Longest::longest_decimal))]
fn number(first: u8, rest: &[u8]) -> Piece
    requires other { starts_word first ≡ false }
    requires digit { is_digit first ≡ true }
    ensures longest { longest_token (first ∷ rest.now) ≡ Some result }
    ensures within { result.len ≤ 1 + length rest.now }
    ensures some { 1 ≤ result.len }
{
    let digits = hex_len(rest);
    let len = if first == b'0' && digits > 0 {
        1 + digits
    } else {
        front_len(Class::Digit, rest)
    };
    Piece {
        kind: Some(TokenKind::Number),
        len: 1 + len,
    }
}

#[tactic(auto, using(crate::proofs::Longest::longest_text, crate::proofs::Longest::no_text, crate::proofs::Longest::no_text_end))]
fn text(first: u8, rest: &[u8]) -> Option<Piece>
    requires { first ≡ 34 }
    ensures longest { longest_token (first ∷ rest.now) ≡ result }
    ensures within { IfSome result (λ piece. piece.len ≤ 1 + length rest.now) }
    ensures some { IfSome result (λ piece. 1 ≤ piece.len) }
{
    let n = front_len(Class::Text, rest);
    if n == rest.len() {
        None
    } else if rest[n] == b'"' {
        Some(Piece {
            kind: Some(TokenKind::Text),
            len: 1 + (n + 1),
        })
    } else {
        None
    }
}

#[tactic(auto, using(crate::proofs::Longest::longest_newline, crate::proofs::Longest::longest_return, crate::proofs::Longest::no_return, crate::proofs::Longest::longest_bar, crate::proofs::Longest::no_bar, crate::proofs::Longest::longest_sign, crate::proofs::Longest::no_sign))]
fn punctuator(first: u8, rest: &[u8]) -> Option<Piece>
    requires other { starts_word first ≡ false }
    requires no_digit { is_digit first ≡ false }
    requires no_quote { first ≢ 34 }
    ensures longest { longest_token (first ∷ rest.now) ≡ result }
    ensures within { IfSome result (λ piece. piece.len ≤ 1 + length rest.now) }
    ensures some { IfSome result (λ piece. 1 ≤ piece.len) }
{
    match first {
        b'\n' => Some(Piece {
            kind: Some(TokenKind::NewLine),
            len: 1,
        }),
        b'\r' if begins_with(b'\n', rest) => Some(Piece {
            kind: Some(TokenKind::NewLine),
            len: 2,
        }),
        b'|' if begins_with(b'|', rest) => Some(Piece {
            kind: Some(TokenKind::Punctuator),
            len: 2,
        }),
        b'\r' | b'|' => None,
        _ if is_punctuator(first) => Some(Piece {
            kind: Some(TokenKind::Punctuator),
            len: 1,
        }),
        _ => None,
    }
}

#[tactic(auto, using(crate::proofs::Longest::longest_word))]
fn token(first: u8, rest: &[u8]) -> Option<Piece>
    ensures longest { longest_token (first ∷ rest.now) ≡ result }
    ensures within { IfSome result (λ piece. piece.len ≤ 1 + length rest.now) }
    ensures some { IfSome result (λ piece. 1 ≤ piece.len) }
{
    if starts_word(first) {
        let len = front_len(Class::Word, rest);
        Some(Piece {
            kind: Some(TokenKind::Word),
            len: 1 + len,
        })
    } else if is_digit(first) {
        Some(number(first, rest))
    } else if first == b'"' {
        text(first, rest)
    } else {
        punctuator(first, rest)
    }
}

/// What starts with this byte, where the others follow it: a comment, a blank, or the longest
/// token. None where nothing does.
#[tactic(auto, unfolding(crate::specs::Tokens::piece_after))]
pub fn piece_after(first: u8, rest: &[u8]) -> Option<Piece>
    ensures piece { result ≡ piece_after first rest.now }
    ensures within { IfSome result (λ piece. piece.len ≤ 1 + length rest.now) }
    ensures some { IfSome result (λ piece. 1 ≤ piece.len) }
{
    if first == b';' {
        Some(Piece {
            kind: None,
            len: 1 + comment_len(rest),
        })
    } else if is_blank(first) {
        Some(Piece { kind: None, len: 1 })
    } else {
        token(first, rest)
    }
}
