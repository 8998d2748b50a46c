ghost use Rattle.std.specs.Prelude.{IfOk};
ghost use Rattle.c6x_asm_lines.specs.Readings.{IsReading};

use crate::lexeme::Lexeme;
use crate::line::Line;
use crate::lines::line_of;
use std::alloc::{AllocError, Global};

/// The line that these lexemes spell. None where they spell none.
#[tactic(auto, using(crate::proofs::Readings::reading_of))]
pub fn read_line(alloc: Global, lexemes: &[Lexeme]) -> Result<Option<Line>, AllocError>
    ensures spells { IfOk result (IsReading lexemes.now) }
{
    let line = line_of(alloc, lexemes)?;
    Ok(line)
}
