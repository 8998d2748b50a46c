ghost use Rattle.std.specs.Prelude.{◌≡◌, ◌^◌, ◌<◌, length, map};
ghost use Rattle.c6x_plan.specs.Lines.{said_lines};
ghost use Rattle.c6x_plan.specs.Rules.{ReadsBy, behind_first, is_first};
ghost use Rattle.c6x_plan.specs.TextLines.{lines_left};

use crate::lines::{Lines, words_of};
use crate::plan_error::PlanError;
use std::alloc::Global;

/// The lines behind the first, which has the format's name and version 1.
#[tactic(auto, unfolding(crate::specs::Rules::behind_first))]
pub fn lines_behind<'a>(
    alloc: Global,
    format: &[u8],
    text: &'a [u8],
) -> Result<Lines<'a>, PlanError>
    requires { length text.now < 2 ^ 32 }
    ensures { ReadsBy lines_left result (behind_first format.now (said_lines 0 text.now)) }
{
    let mut lines = Lines::new(text);
    let Some(first) = lines.next() else {
        return Err(PlanError::Syntax { line: 0 });
    };
    let words = words_of(alloc, first.bytes)?;
    if is_first(format, &words) {
        Ok(lines)
    } else {
        Err(PlanError::Syntax { line: first.number })
    }
}

/// The words of a first line.
fn is_first(format: &[u8], words: &[&[u8]]) -> bool
    ensures { result ≡ is_first format.now (map (λ word. word.now) words.now) }
{
    match words {
        [name, version] => *name == format && *version == b"1".as_slice(),
        _ => false,
    }
}
