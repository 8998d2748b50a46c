ghost use Rattle.std.specs.Prelude.{◌≡◌, ◌<◌, None, IfOk, IfSome, OnOk, vec_len, length};
ghost use Rattle.c6x_asm.specs.States.{State, state_of, IsSound, Becomes};
ghost use Rattle.c6x_asm.specs.StepLines.{is_numbers, zero_fault, numbers_fault, with_keyword, with_statement, stated, after_label, fault_of_label, stepped};

use crate::directives::apply;
use crate::instructions::instruct;
use crate::labels::{label_fault, set_label};
use c6x_asm_instr::{Keyword, directive_of, keyword_of, kinds_fault};
use c6x_asm_lines::{AsmRule, Line, Operand, Statement, Word, WordClass, bytes_at, lower};
use c6x_asm_object::{AsmSection, Object, is_zero};
use std::alloc::{AllocError, Global};

fn is_numbers(keyword: Keyword) -> bool
    ensures { result ≡ is_numbers keyword }
{
    matches!(keyword, Keyword::Word | Keyword::Half | Keyword::Byte)
}

#[tactic(auto, using(std::proofs::lemmas::List::get_or_default))]
fn zero_fault(sections: &[AsmSection], now: Option<usize>) -> Option<AsmRule>
    requires { IfSome now (λ i. i < length sections.now) }
    ensures { result ≡ zero_fault sections.now now }
{
    match now {
        None => None,
        Some(i) => {
            if is_zero(sections[i].kind) {
                Some(AsmRule::Operand)
            } else {
                None
            }
        }
    }
}

fn numbers_fault(keyword: Keyword, sections: &[AsmSection], now: Option<usize>) -> Option<AsmRule>
    requires { IfSome now (λ i. i < length sections.now) }
    ensures { result ≡ numbers_fault keyword sections.now now }
{
    if is_numbers(keyword) {
        zero_fault(sections, now)
    } else {
        None
    }
}

fn direct<'a>(
    alloc: Global,
    text: &'a [u8],
    keyword: Option<Keyword>,
    operands: &[Operand],
    object: &mut Object<'a>,
) -> Result<Result<(), AsmRule>, AllocError>
    requires sound { IsSound text.now object.old }
    ensures is { IfOk result (λ done. Becomes done object.new (with_keyword text.now keyword operands.now (state_of object.old))) }
    ensures sound { IfOk result (λ done. IsSound text.now object.new) }
{
    let Some(keyword) = keyword else {
        return Ok(Err(AsmRule::UnknownWord));
    };
    let fault = numbers_fault(keyword, &object.sections, object.current);
    match (fault, directive_of(alloc, text, keyword, operands)?) {
        (None, Ok(directive)) => apply(alloc, text, object, &directive),
        (None, Err(rule)) => Ok(Err(rule)),
        (Some(rule), Ok(_)) => Ok(Err(rule)),
        (Some(rule), Err(other)) => Ok(Err(lower(rule, other))),
    }
}

fn state<'a>(
    alloc: Global,
    text: &'a [u8],
    line: u32,
    statement: &Statement,
    object: &mut Object<'a>,
) -> Result<Result<(), AsmRule>, AllocError>
    requires sound { IsSound text.now object.old }
    ensures is { IfOk result (λ done. Becomes done object.new (with_statement text.now line statement.now (state_of object.old))) }
    ensures sound { IfOk result (λ done. IsSound text.now object.new) }
{
    let head = statement.head;
    let operands = statement.operands.as_slice();
    match head.word.class {
        WordClass::Dotted => direct(
            alloc,
            text,
            keyword_of(bytes_at(text, head.word.at, head.word.len)),
            operands,
            object,
        ),
        _ => instruct(text, line, head, operands, object),
    }
}

#[tactic(auto, unfolding(crate::specs::StepLines::stated))]
fn state_any<'a>(
    alloc: Global,
    text: &'a [u8],
    line: u32,
    statement: &Option<Statement>,
    object: &mut Object<'a>,
) -> Result<Result<(), AsmRule>, AllocError>
    requires sound { IsSound text.now object.old }
    ensures is { IfOk result (λ done. Becomes done object.new (stated text.now line statement.now (state_of object.old))) }
    ensures sound { IfOk result (λ done. IsSound text.now object.new) }
{
    match statement {
        None => Ok(Ok(())),
        Some(statement) => {
            let fault = kinds_fault(text, statement.operands.as_slice());
            match (fault, state(alloc, text, line, statement, object)?) {
                (None, done) => Ok(done),
                (Some(rule), Ok(())) => Ok(Err(rule)),
                (Some(rule), Err(other)) => Ok(Err(lower(rule, other))),
            }
        }
    }
}

fn label<'a>(
    text: &'a [u8],
    object: &mut Object<'a>,
    word: Option<Word>,
) -> Result<Option<AsmRule>, AllocError>
    requires sound { IsSound text.now object.old }
    ensures fault { IfOk result (λ fault. fault ≡ fault_of_label text.now (state_of object.old) word) }
    ensures after { OnOk result (state_of object.new ≡ after_label text.now (state_of object.old) word) }
    ensures sound { OnOk result (IsSound text.now object.new) }
{
    match word {
        None => Ok(None),
        Some(word) => {
            let fault = label_fault(text, object, word);
            set_label(text, object, word)?;
            Ok(fault)
        }
    }
}

/// Adds what a line says to the sections and symbols so far, or answers the lowest rule that it
/// breaks; after that the object is of no use but for the instructions of earlier lines.
#[tactic(auto, unfolding(crate::specs::StepLines::stepped))]
pub fn step<'a>(
    alloc: Global,
    text: &'a [u8],
    number: u32,
    line: &Line,
    object: &mut Object<'a>,
) -> Result<Result<(), AsmRule>, AllocError>
    requires sound { IsSound text.now object.old }
    ensures is { IfOk result (λ done. Becomes done object.new (stepped text.now number line.now (state_of object.old))) }
    ensures sound { IfOk result (λ done. IsSound text.now object.new) }
{
    let fault = label(text, object, line.label)?;
    match (
        fault,
        state_any(alloc, text, number, &line.statement, object)?,
    ) {
        (None, done) => Ok(done),
        (Some(rule), Ok(())) => Ok(Err(rule)),
        (Some(rule), Err(other)) => Ok(Err(lower(rule, other))),
    }
}
