ghost use Rattle.std.specs.Prelude.{◌≡◌, ◌^◌, ◌<◌, [], None, Some, Err, IfOk, length};
ghost use Rattle.c6x_lex.specs.Tokens.{AreSpans, tokens_of};
ghost use Rattle.c6x_asm.specs.States.{State, state_of, IsSound};
ghost use Rattle.c6x_asm.specs.Lines.{after_lines, lines_of};
ghost use Rattle.c6x_asm.specs.Running.{Completes, and_last, last_lined, left, run_from, state_left};
ghost use Rattle.c6x_asm.specs.Reading.{lower_line, bad_line, before, nothing, stopped, read_lines, read_of, Reads};

use crate::asm_error::AsmError;
use crate::broken::Broken;
use crate::checking::first_bad;
use crate::running::{add_line, ends_in_newline, run};
use c6x_asm_lines::{AsmRule, Lexeme};
use c6x_asm_object::{AsmSection, Object, Outline};
use c6x_lex::{LexError, Token, lex};
use std::alloc::{AllocError, Global};

fn lower_line(a: Option<u32>, b: Option<u32>) -> Option<u32>
    ensures { result ≡ lower_line a b }
{
    match (a, b) {
        (None, other) => other,
        (Some(a), None) => Some(a),
        (Some(a), Some(b)) => Some(a.min(b)),
    }
}

fn bad_line(alloc: Global, sections: &[AsmSection]) -> Result<Option<u32>, AllocError>
    ensures { IfOk result (λ line. line ≡ bad_line None sections.now) }
{
    let mut line = None;
    for section in sections {
        line = lower_line(line, first_bad(alloc, section.instructions.as_slice())?);
    }
    Ok(line)
}

fn nothing<'a>(alloc: Global, text: &'a [u8]) -> Object<'a>
    ensures is { state_of result ≡ nothing }
    ensures sound { IsSound text.now result }
{
    Object::new(alloc)
}

fn packet_before(
    alloc: Global,
    text: &[u8],
    tokens: &[Token],
    broken: Broken,
) -> Result<Broken, AllocError>
    requires small { length text.now < 2 ^ 32 }
    requires spans { AreSpans text.now 0 tokens.now }
    ensures { IfOk result (λ lowest. Err lowest ≡ stopped broken (state_left (run_from text.now (Some broken.line) 1 [] nothing tokens.now))) }
{
    let mut object = nothing(alloc, text);
    let mut lexemes = Vec::new(alloc);
    let end = Some(broken.line);
    if run(alloc, text, tokens, end, &mut lexemes, &mut object)?.is_err() {
        return Ok(broken);
    }
    match bad_line(alloc, object.sections.as_slice())? {
        Some(line) => Ok(Broken {
            rule: AsmRule::Packet,
            line,
        }),
        None => Ok(broken),
    }
}

// A line breaks a rule: the packets of the lines before it are lower.
#[tactic(auto, using(crate::proofs::Passes::stop_ok))]
fn stopped(
    alloc: Global,
    text: &[u8],
    tokens: &[Token],
    broken: Broken,
) -> Result<Broken, AllocError>
    requires small { length text.now < 2 ^ 32 }
    requires spans { AreSpans text.now 0 tokens.now }
    requires is { after_lines text.now 1 nothing (lines_of text.now tokens.now) ≡ Err broken }
    ensures { IfOk result (λ lowest. Err lowest ≡ stopped broken (after_lines text.now 1 nothing (before broken.line (lines_of text.now tokens.now)))) }
{
    packet_before(alloc, text, tokens, broken)
}

// The last line, which is none behind a last newline.
fn add_last<'a>(
    alloc: Global,
    text: &'a [u8],
    line: u32,
    lexemes: &[Lexeme],
    object: &mut Object<'a>,
) -> Result<Result<(), Broken>, AllocError>
    requires sound { IsSound text.now object.old }
    ensures { IfOk result (λ done. Completes done object.new (last_lined text.now (left line lexemes.now (state_of object.old)))) }
{
    if ends_in_newline(text) {
        return Ok(Ok(()));
    }
    let mut outline = Outline::of(alloc, text, &object.sections)?;
    match add_line(alloc, text, line, lexemes, object, &mut outline)? {
        Ok(()) => Ok(Ok(())),
        Err(rule) => Ok(Err(Broken { rule, line })),
    }
}

fn add_tokens<'a>(
    alloc: Global,
    text: &'a [u8],
    tokens: &[Token],
    object: &mut Object<'a>,
) -> Result<Result<(), Broken>, AllocError>
    requires small { length text.now < 2 ^ 32 }
    requires spans { AreSpans text.now 0 tokens.now }
    requires sound { IsSound text.now object.old }
    ensures { IfOk result (λ done. Completes done object.new (and_last text.now (run_from text.now None 1 [] (state_of object.old) tokens.now))) }
{
    let mut lexemes = Vec::new(alloc);
    match run(alloc, text, tokens, None, &mut lexemes, object)? {
        Err(broken) => Ok(Err(broken)),
        Ok(line) => add_last(alloc, text, line, lexemes.as_slice(), object),
    }
}

// All lines of a text.
#[tactic(auto, using(crate::proofs::Passes::come_ok))]
fn add_lines<'a>(
    alloc: Global,
    text: &'a [u8],
    tokens: &[Token],
    object: &mut Object<'a>,
) -> Result<Result<(), Broken>, AllocError>
    requires small { length text.now < 2 ^ 32 }
    requires spans { AreSpans text.now 0 tokens.now }
    requires sound { IsSound text.now object.old }
    ensures { IfOk result (λ done. Completes done object.new (after_lines text.now 1 (state_of object.old) (lines_of text.now tokens.now))) }
{
    add_tokens(alloc, text, tokens, object)
}

#[tactic(auto, unfolding(crate::specs::Reading::read_lines))]
fn ended<'a>(alloc: Global, text: &'a [u8], tokens: &[Token]) -> Result<Object<'a>, AsmError>
    requires small { length text.now < 2 ^ 32 }
    requires spans { AreSpans text.now 0 tokens.now }
    ensures { Reads result (read_lines text.now (lines_of text.now tokens.now)) }
{
    let mut object = nothing(alloc, text);
    match add_lines(alloc, text, tokens, &mut object)? {
        Ok(()) => match bad_line(alloc, object.sections.as_slice())? {
            Some(line) => Err(AsmError::Rule {
                rule: AsmRule::Packet,
                line,
            }),
            None => Ok(object),
        },
        Err(broken) => {
            let lowest = stopped(alloc, text, tokens, broken)?;
            Err(AsmError::Rule {
                rule: lowest.rule,
                line: lowest.line,
            })
        }
    }
}

/// The sections and symbols of a text, or the first rule that it breaks.
#[tactic(auto, unfolding(crate::specs::Reading::read_of))]
pub fn read<'a>(alloc: Global, text: &'a [u8]) -> Result<Object<'a>, AsmError>
    requires { length text.now < 2 ^ 32 }
    ensures { Reads result (read_of text.now) }
{
    match lex(alloc, text) {
        Ok(tokens) => ended(alloc, text, tokens.as_slice()),
        Err(LexError::BadByte { line, .. }) => Err(AsmError::Rule {
            rule: AsmRule::BadByte,
            line,
        }),
        Err(LexError::NoMemory) => Err(AsmError::NoMemory),
    }
}
