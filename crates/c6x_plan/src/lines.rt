ghost use Rattle.std.specs.Prelude.{◌≡◌, ◌==◌, ◌+◌, ◌^◌, ◌<◌, ◌∷◌, length, map, slice_index, IfOk, IfSome};
ghost use Rattle.std.specs.List.{position, list_all};
ghost use Rattle.std.specs.Str.Lines.{lines, strip_carriage_return};
ghost use Rattle.c6x_plan.specs.Lines.{is_blank, is_passed_over, words_of};

use crate::text_line::TextLine;
use std::alloc::{AllocError, Global};

/// The lines of a text that say something, from the first to the last.
#[derive(Debug, Drop)]
pub struct Lines<'a> {
    rest: &'a [u8],
    gone: u32,
    ghost fits: { gone + length rest.now < 2 ^ 32 },
}

impl<'a> Lines<'a> {
    ghost use Rattle.c6x_plan.specs.TextLines.{lines_left};
    ghost use Rattle.c6x_plan.specs.Lines.{said_lines};

    /// Those of the whole text.
    pub fn new(text: &'a [u8]) -> Lines<'a>
        requires { length text.now < 2 ^ 32 }
        ensures { lines_left result ≡ said_lines 0 text.now }
    {
        Lines {
            rest: text,
            gone: 0,
        }
    }
}

impl<'a> Iterator for Lines<'a> {
    type Item = TextLine<'a>;

    ghost use Rattle.std.specs.Iterator.{YieldsFirstBy, item_count};
    ghost use Rattle.c6x_plan.specs.Lines.{said_of};
    ghost use Rattle.c6x_plan.specs.TextLines.{lines_left};

    ghost next_gives = { YieldsFirstBy said_of lines_left };

    ghost remaining = { item_count lines_left };

    #[tactic(auto, using(crate::proofs::LinesLeft::left_passed, crate::proofs::LinesLeft::left_said, crate::proofs::LinesLeft::left_none))]
    fn next(&mut self) -> Option<TextLine<'a>> {
        while !self.rest.is_empty() {
            let (line, rest) = first_line(self.rest);
            self.rest = rest;
            self.gone += 1;
            if !is_passed_over(line) {
                return Some(TextLine {
                    number: self.gone,
                    bytes: line,
                });
            }
        }
        None
    }
}

/// The first line of a text that is not empty, and what stands behind it.
fn first_line(text: &[u8]) -> (&[u8], &[u8])
    requires { 0 < length text.now }
    ensures cut { lines text.now ≡ result.0.now ∷ lines result.1.now }
    ensures shorter { length result.1.now < length text.now }
{
    match newline_in(text) {
        Some(end) => (without_return(&text[..end]), &text[end + 1..]),
        None => (text, &[]),
    }
}

/// Where the first newline stands.
fn newline_in(text: &[u8]) -> Option<usize>
    ensures value { result ≡ position (λ byte. byte == 10) text.now }
    ensures within { IfSome result (λ place. place < length text.now) }
{
    text.iter().position(|byte| *byte == b'\n')
}

/// The bytes without a carriage return at their end.
fn without_return(line: &[u8]) -> &[u8]
    ensures { result.now ≡ strip_carriage_return line.now }
{
    match line {
        [front @ .., b'\r'] => front,
        _ => line,
    }
}

/// The line says nothing.
fn is_passed_over(line: &[u8]) -> bool
    ensures { result ≡ is_passed_over line.now }
{
    begins_comment(line) || are_blank(line)
}

fn begins_comment(line: &[u8]) -> bool
    ensures { result ≡ (slice_index line.now 0 == 35) }
{
    !line.is_empty() && line[0] == b'#'
}

fn are_blank(line: &[u8]) -> bool
    ensures { result ≡ list_all is_blank line.now }
{
    line.iter().all(|byte| is_blank(*byte))
}

/// A space or a tab.
fn is_blank(byte: u8) -> bool
    ensures { result ≡ is_blank byte }
{
    byte == b' ' || byte == b'\t'
}

/// What stands between blanks.
pub fn words_of(alloc: Global, line: &[u8]) -> Result<Vec<&[u8]>, AllocError>
    ensures { IfOk result (λ words. map (λ word. word.now) words.items ≡ words_of line.now) }
{
    line.split(|byte| is_blank(*byte))
        .filter(|word| !word.is_empty())
        .collect(alloc)
}
