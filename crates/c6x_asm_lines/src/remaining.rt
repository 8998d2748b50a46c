ghost use Rattle.std.specs.Prelude.{◌≡◌};

use crate::lexeme::Lexeme;
use std::marker::Model;

/// What is left of a line.
#[derive(Drop)]
pub struct Remaining<'t> {
    lexemes: &'t [Lexeme],
}

impl<'t> Model for Remaining<'t> {
    ghost use Rattle.std.specs.Prelude.{List};
    ghost use Rattle.c6x_asm_lines.specs.declared.lexeme.Lexeme.{Lexeme};

    ghost Value = { List Lexeme };

    ghost view = { λ r. r.lexemes.now };
}

impl<'t> Remaining<'t> {
    pub fn of(lexemes: &'t [Lexeme]) -> Remaining<'t>
        ensures { result ≡ lexemes.now }
    {
        Remaining { lexemes }
    }

    pub fn lexemes(&self) -> &'t [Lexeme]
        ensures { result.now ≡ self.now }
    {
        self.lexemes
    }
}
