//! The tokens of an assembly text.
//!
//! The syntax is this project's own. A text is cut from left to right: blanks and comments make no
//! token, and everywhere else the longest token that starts there is taken.
#![tactic(auto)]

mod bytes;
mod cut;
mod error;
mod kind;
mod lexer;
mod piece;
mod place;
mod token;

pub use error::LexError;
pub use kind::TokenKind;
pub use lexer::lex;
pub use token::Token;
