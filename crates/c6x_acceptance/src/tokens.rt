ghost use Rattle.std.specs.Prelude.{◌<◌, ◌^◌, length};

use c6x_lex::{LexError, Token, TokenKind, lex};
use std::alloc::Global;
use std::test::Fail;

fn token(kind: TokenKind, at: u32, len: u32, line: u32) -> Token {
    Token {
        kind,
        at,
        len,
        line,
    }
}

/// The tokens of a text, with nothing known of them.
fn tokens_of(alloc: Global, text: &[u8]) -> Result<Vec<Token>, LexError>
    requires { length text.now < 2 ^ 32 }
{
    lex(alloc, text)
}

#[test]
fn a_text_of_three_lines(rt: HostRuntime) -> Result<(), Fail> {
    let tokens = tokens_of(rt.alloc(), b"a: .sect \"x\" ; c\r\n||0x1fg +")?;
    let expected = [
        token(TokenKind::Word, 0, 1, 1),
        token(TokenKind::Punctuator, 1, 1, 1),
        token(TokenKind::Word, 3, 5, 1),
        token(TokenKind::Text, 9, 3, 1),
        token(TokenKind::NewLine, 16, 2, 1),
        token(TokenKind::Punctuator, 18, 2, 2),
        token(TokenKind::Number, 20, 4, 2),
        token(TokenKind::Word, 24, 1, 2),
        token(TokenKind::Punctuator, 26, 1, 2),
    ];
    assert!(rt; tokens.as_slice() == expected.as_slice());
    Ok(())
}

#[test]
fn a_byte_that_starts_no_token(rt: HostRuntime) -> Result<(), Fail> {
    let answer = tokens_of(rt.alloc(), b"NOP\n  \"open");
    assert!(rt; matches!(&answer, Err(LexError::BadByte { line: 2, column: 3 })));
    Ok(())
}
