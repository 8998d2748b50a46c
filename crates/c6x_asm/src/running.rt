ghost use Rattle.std.specs.Prelude.{◌≡◌, ℕ, ◌+◌, ◌^◌, ◌<◌, ◌≤◌, if◌then◌else◌, false, List, ◌∷◌, Option, Some, None, IfOk, OnOk, length};
ghost use Rattle.c6x_lex.specs.Tokens.{AreSpans};
ghost use Rattle.c6x_lex.specs.declared.token.Token.{Token};
ghost use Rattle.c6x_asm_object.specs.Limits.{is_large};
ghost use Rattle.c6x_asm_lines.specs.declared.rule.AsmRule.TheVariants.{Large};
ghost use Rattle.c6x_asm.specs.States.{State, state_of, IsSound, Becomes};
ghost use Rattle.c6x_asm_lines.specs.Grammar.{line_of};
ghost use Rattle.c6x_asm_object.specs.Sums.{AreBlocks};
ghost use Rattle.c6x_asm.specs.Lines.{counted, sized, read_line, lined, ends_in_newline};
ghost use Rattle.c6x_asm.specs.Running.{is_end, run_from, Runs, Goes};

use crate::broken::Broken;
use crate::lines::step;
use c6x_asm_lines::{AsmRule, Lexeme, Line, lexeme_of};
use c6x_asm_object::{Object, Outline, is_large};
use c6x_lex::Token;
use std::alloc::{AllocError, Global};

#[tactic(auto, using(c6x_asm_lines::proofs::Readings::read_as_spelled))]
fn spelled_line(alloc: Global, lexemes: &[Lexeme]) -> Result<Option<Line>, AllocError>
    ensures { IfOk result (λ line. line ≡ line_of lexemes.now) }
{
    let line = c6x_asm_lines::read_line(alloc, lexemes)?;
    Ok(line)
}

fn read_line<'a>(
    alloc: Global,
    text: &'a [u8],
    number: u32,
    lexemes: &[Lexeme],
    object: &mut Object<'a>,
) -> Result<Result<(), AsmRule>, AllocError>
    requires sound { IsSound text.now object.old }
    ensures is { IfOk result (λ done. Becomes done object.new (read_line text.now number (line_of lexemes.now) (state_of object.old))) }
    ensures sound { IfOk result (λ done. IsSound text.now object.new) }
{
    match spelled_line(alloc, lexemes)? {
        None => Ok(Err(AsmRule::Syntax)),
        Some(line) => step(alloc, text, number, &line, object),
    }
}

// The outline follows, so that a line takes no walk over all sections.
fn read_followed<'a>(
    alloc: Global,
    text: &'a [u8],
    number: u32,
    lexemes: &[Lexeme],
    object: &mut Object<'a>,
    outline: &mut Outline,
) -> Result<Result<(), AsmRule>, AllocError>
    requires sound { IsSound text.now object.old }
    requires outline { AreBlocks text.now object.old.sections.items outline.old }
    ensures is { IfOk result (λ done. Becomes done object.new (read_line text.now number (line_of lexemes.now) (state_of object.old))) }
    ensures sound { IfOk result (λ done. IsSound text.now object.new) }
    ensures outline { IfOk result (λ done. OnOk done (AreBlocks text.now object.new.sections.items outline.new)) }
{
    let count = object.sections.as_slice().len();
    let current = object.current;
    match read_line(alloc, text, number, lexemes, object)? {
        Err(rule) => Ok(Err(rule)),
        Ok(()) => {
            outline.follow(text, &object.sections, count, current)?;
            Ok(Ok(()))
        }
    }
}

// `Large` where the object of the lines so far passes a limit.
fn limit_fault(text: &[u8], object: &Object, outline: &Outline) -> Option<AsmRule>
    requires sound { IsSound text.now object.now }
    requires outline { AreBlocks text.now object.now.sections.items outline.now }
    ensures { result ≡ (if is_large text.now object.now.sections.items object.now.symbols.list.items then Some Large else None) }
{
    let symbols = &object.symbols;
    if is_large(
        text,
        &object.sections,
        &symbols.list,
        symbols.names_len,
        outline,
    ) {
        Some(AsmRule::Large)
    } else {
        None
    }
}

fn sized<'a>(
    alloc: Global,
    text: &'a [u8],
    number: u32,
    lexemes: &[Lexeme],
    object: &mut Object<'a>,
    outline: &mut Outline,
) -> Result<Result<(), AsmRule>, AllocError>
    requires sound { IsSound text.now object.old }
    requires outline { AreBlocks text.now object.old.sections.items outline.old }
    ensures is { IfOk result (λ done. Becomes done object.new (sized text.now (read_line text.now number (line_of lexemes.now) (state_of object.old)))) }
    ensures sound { IfOk result (λ done. IsSound text.now object.new) }
    ensures outline { IfOk result (λ done. OnOk done (AreBlocks text.now object.new.sections.items outline.new)) }
{
    match read_followed(alloc, text, number, lexemes, object, outline)? {
        Err(rule) => Ok(Err(rule)),
        Ok(()) => match limit_fault(text, object, outline) {
            Some(rule) => Ok(Err(rule)),
            None => Ok(Ok(())),
        },
    }
}

/// Adds a line, or answers the lowest rule that it breaks.
#[tactic(auto, unfolding(crate::specs::Lines::lined))]
pub fn add_line<'a>(
    alloc: Global,
    text: &'a [u8],
    number: u32,
    lexemes: &[Lexeme],
    object: &mut Object<'a>,
    outline: &mut Outline,
) -> Result<Result<(), AsmRule>, AllocError>
    requires sound { IsSound text.now object.old }
    requires outline { AreBlocks text.now object.old.sections.items outline.old }
    ensures is { IfOk result (λ done. Becomes done object.new (lined text.now number lexemes.now (state_of object.old))) }
    ensures sound { IfOk result (λ done. IsSound text.now object.new) }
    ensures small { IfOk result (λ done. OnOk done (number ≤ 65536)) }
    ensures outline { IfOk result (λ done. OnOk done (AreBlocks text.now object.new.sections.items outline.new)) }
{
    match sized(alloc, text, number, lexemes, object, outline)? {
        Err(rule) => Ok(Err(rule)),
        Ok(()) => {
            if number > 65_536 {
                Ok(Err(AsmRule::Large))
            } else {
                Ok(Ok(()))
            }
        }
    }
}

/// Whether the last byte of a text is a newline.
pub fn ends_in_newline(text: &[u8]) -> bool
    ensures { result ≡ ends_in_newline text.now }
{
    !text.is_empty() && text[text.len() - 1] == b'\n'
}

// One token further.
fn advance<'a>(
    alloc: Global,
    text: &'a [u8],
    token: Token,
    line: u32,
    lexemes: &mut Vec<Lexeme>,
    object: &mut Object<'a>,
    outline: &mut Outline,
) -> Result<Result<u32, AsmRule>, AllocError>
    requires inside { token.at + token.len ≤ length text.now }
    requires small { length text.now < 2 ^ 32 }
    requires some { 1 ≤ token.len }
    requires lines { line ≤ 65537 }
    requires sound { IsSound text.now object.old }
    requires outline { AreBlocks text.now object.old.sections.items outline.old }
    ensures goes { IfOk result (λ r. (end : Option ℕ) (tokens : List Token) → is_end end line ≡ false → Goes r line (run_from text.now end line lexemes.old.items (state_of object.old) (token ∷ tokens)) (λ next. run_from text.now end next lexemes.new.items (state_of object.new) tokens)) }
    ensures lines { IfOk result (λ r. IfOk r (λ next. next ≤ 65537)) }
    ensures sound { IfOk result (λ r. IsSound text.now object.new) }
    ensures outline { IfOk result (λ r. OnOk r (AreBlocks text.now object.new.sections.items outline.new)) }
{
    match lexeme_of(text, token) {
        Some(lexeme) => {
            lexemes.push(lexeme).map_err(AllocError::from)?;
            Ok(Ok(line))
        }
        None => match add_line(alloc, text, line, lexemes.as_slice(), object, outline)? {
            Err(rule) => Ok(Err(rule)),
            Ok(()) => {
                lexemes.clear();
                Ok(Ok(line + 1))
            }
        },
    }
}

fn is_end(end: Option<u32>, line: u32) -> bool
    ensures { result ≡ is_end end line }
{
    end == Some(line)
}

/// Goes through the lines of a text's tokens that a line end ends, up to the first that breaks a rule
/// or to the line with the number `end`. The answer is the number of the line that has begun;
/// `lexemes` are then its.
#[tactic(auto, using(crate::proofs::Inside::token_inside, crate::proofs::Inside::token_some, crate::proofs::Passes::run_ends))]
pub fn run<'a>(
    alloc: Global,
    text: &'a [u8],
    tokens: &[Token],
    end: Option<u32>,
    lexemes: &mut Vec<Lexeme>,
    object: &mut Object<'a>,
) -> Result<Result<u32, Broken>, AllocError>
    requires small { length text.now < 2 ^ 32 }
    requires spans { AreSpans text.now 0 tokens.now }
    requires sound { IsSound text.now object.old }
    ensures is { IfOk result (λ r. Runs r lexemes.new.items object.new (run_from text.now end 1 lexemes.old.items (state_of object.old) tokens.now)) }
    ensures sound { IfOk result (λ r. IsSound text.now object.new) }
{
    let mut line = 1;
    let mut outline = Outline::of(alloc, text, &object.sections)?;
    for token in tokens {
        if is_end(end, line) {
            return Ok(Ok(line));
        }
        match advance(alloc, text, *token, line, lexemes, object, &mut outline)? {
            Ok(next) => line = next,
            Err(rule) => return Ok(Err(Broken { rule, line })),
        }
    }
    Ok(Ok(line))
}
