ghost use Rattle.std.specs.Prelude.{◌≡◌, ◌≢◌, ℕ, ◌+◌, ◌^◌, ◌<◌, ◌≤◌, ◌++◌, length, IfOk, OnOk};
ghost use Rattle.c6x_lex.specs.Tokens.{behind, token_of, tokens_of, Lexes, AreSpans};

use crate::cut::Piece;
use crate::error::LexError;
use crate::kind::TokenKind;
use crate::piece::piece_after;
use crate::place::Place;
use crate::token::Token;
use std::alloc::{AllocError, Global};

// Where the piece behind this one starts.
fn behind(piece: Piece, place: Place) -> Place
    requires offset { place.at + piece.len < 2 ^ 32 }
    requires lines { place.line ≤ place.at + 1 }
    requires some { 1 ≤ piece.len }
    ensures place { result ≡ behind piece place }
    ensures at { result.at ≡ place.at + piece.len }
    ensures lines { result.line ≤ result.at + 1 }
    ensures starts { place.start ≤ place.at → result.start ≤ result.at }
{
    let at = place.at + piece.len;
    match piece.kind {
        Some(TokenKind::NewLine) => Place {
            at,
            line: place.line + 1,
            start: at,
        },
        _ => Place { at, ..place },
    }
}

// Adds the token of a piece, if it makes one.
fn push(tokens: &mut Vec<Token>, piece: Piece, place: Place) -> Result<(), AllocError>
    requires offset { place.at + piece.len < 2 ^ 32 }
    requires lines { place.line < 2 ^ 32 }
    ensures { OnOk result (tokens.new.items ≡ tokens.old.items ++ token_of piece place) }
{
    match piece.kind {
        None => Ok(()),
        Some(kind) => {
            let token = Token {
                kind,
                at: place.at as u32,
                len: piece.len as u32,
                line: place.line as u32,
            };
            tokens.push(token).map_err(AllocError::from)
        }
    }
}

#[tactic(auto, using(crate::proofs::Steps::tokens_step, crate::proofs::Steps::tokens_stop, crate::proofs::Steps::tokens_end, crate::proofs::Steps::tokens_begin, crate::proofs::Steps::behind_at, crate::proofs::Spans::spans_of))]
/// The tokens of a text: from left to right the longest ones, with blanks and comments between them.
pub fn lex(alloc: Global, text: &[u8]) -> Result<Vec<Token>, LexError>
    requires { length text.now < 2 ^ 32 }
    ensures tokens { Lexes result (tokens_of text.now) }
    ensures spans { IfOk result (λ tokens. AreSpans text.now 0 tokens.items) }
{
    let mut tokens = Vec::new(alloc);
    let mut place = Place {
        at: 0,
        line: 1,
        start: 0,
    };
    while place.at < text.len() {
        let Some(piece) = piece_after(text[place.at], &text[place.at + 1..]) else {
            let column = place.at - place.start + 1;
            return Err(LexError::BadByte {
                line: place.line as u32,
                column: column as u32,
            });
        };
        push(&mut tokens, piece, place)?;
        place = behind(piece, place);
    }
    Ok(tokens)
}
