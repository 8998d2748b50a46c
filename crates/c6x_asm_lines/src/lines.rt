ghost use Rattle.std.specs.Prelude.{◌≡◌, IfOk};
ghost use Rattle.c6x_asm_lines.specs.Grammar.{line_of};

use crate::heads::{read_head, read_label};
use crate::lexeme::Lexeme;
use crate::line::{Line, Statement};
use crate::operands::operands_of;
use c6x_base::Row;
use std::alloc::{AllocError, Global};

/// The line that these lexemes spell. None where they spell none.
#[tactic(auto, unfolding(crate::specs::Grammar::line_of))]
pub fn line_of(alloc: Global, lexemes: &[Lexeme]) -> Result<Option<Line>, AllocError>
    ensures { IfOk result (λ line. line ≡ line_of lexemes.now) }
{
    let Some((label, rest)) = read_label(lexemes) else {
        return Ok(None);
    };
    match rest.lexemes() {
        [] => Ok(Some(Line {
            label,
            statement: None,
        })),
        statement => {
            let Some((head, rest)) = read_head(statement) else {
                return Ok(None);
            };
            let Some(operands) = operands_of(alloc, rest.lexemes())? else {
                return Ok(None);
            };
            let statement = Statement {
                head,
                operands: Row::of(operands),
            };
            Ok(Some(Line {
                label,
                statement: Some(statement),
            }))
        }
    }
}
