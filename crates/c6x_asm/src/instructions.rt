ghost use Rattle.std.specs.Prelude.{◌≡◌, ◌+◌, ◌<◌, ◌≤◌, IfOk, IfSome, vec_len, length};
ghost use Rattle.c6x_encoding.specs.Spelling.{IsValid};
ghost use Rattle.c6x_asm_object.specs.Sections.{section_at, is_zero};
ghost use Rattle.c6x_asm.specs.States.{State, state_of, IsSound, Becomes};
ghost use Rattle.c6x_asm.specs.Instructions.{ends_at, is_behind, chain_fault, place_fault, fails, word_of, with_word, with_made, instruction_fault, instructed};

use crate::directives::has_room;
use crate::relocations::relocate;
use c6x_asm_instr::instruction_of;
use c6x_asm_lines::{AsmRule, Operand, RelocatableOp, StatementHead, lower, lowest};
use c6x_asm_object::{AsmSection, InstrWord, Object, SectionKind, add_instruction, is_zero};
use c6x_encoding::{Cond, Instr, Op, encode, is_valid};
use std::alloc::AllocError;

fn ends_at(last: Option<u32>, size: u32) -> bool
    ensures { result ≡ ends_at last size }
{
    match last {
        None => false,
        Some(last) => last == size,
    }
}

#[tactic(auto, using(std::proofs::lemmas::List::get_or_default))]
fn is_behind(sections: &[AsmSection], now: Option<usize>) -> bool
    requires { IfSome now (λ i. i < length sections.now) }
    ensures { result ≡ is_behind sections.now now }
{
    match now {
        None => false,
        Some(i) => ends_at(sections[i].last, sections[i].size),
    }
}

fn chain_fault(chained: bool, behind: bool) -> Option<AsmRule>
    ensures { result ≡ chain_fault chained behind }
{
    if chained && !behind {
        Some(AsmRule::Syntax)
    } else {
        None
    }
}

#[tactic(auto, using(std::proofs::lemmas::List::get_or_default))]
fn place_fault(sections: &[AsmSection], now: Option<usize>) -> Option<AsmRule>
    requires { IfSome now (λ i. i < length sections.now) }
    ensures { result ≡ place_fault sections.now now }
{
    match now {
        None => Some(AsmRule::NoSection),
        Some(i) => {
            if is_zero(sections[i].kind) || sections[i].size % 4 != 0 {
                Some(AsmRule::Operand)
            } else {
                None
            }
        }
    }
}

#[tactic(auto, unfolding(crate::specs::Instructions::word_of), using(crate::proofs::Encoding::encoded_valid, crate::proofs::Encoding::encoded_invalid))]
fn word_of(condition: Cond, op: Op) -> Option<u32>
    ensures { result ≡ word_of condition op }
{
    let instr = Instr {
        condition,
        op,
        chained: false,
    };
    if is_valid(&instr) {
        Some(encode(&instr))
    } else {
        None
    }
}

#[tactic(auto, using(std::proofs::lemmas::List::get_or_default))]
fn add_word<'a>(
    text: &'a [u8],
    object: &mut Object<'a>,
    i: usize,
    instruction: InstrWord,
    made: RelocatableOp,
) -> Result<Result<(), AsmRule>, AllocError>
    requires sound { IsSound text.now object.old }
    requires there { i < vec_len object.old.sections }
    ensures is { IfOk result (λ done. Becomes done object.new (with_word text.now instruction.line instruction.chained made (Some instruction.word) (state_of object.old) i)) }
    ensures sound { IfOk result (λ done. IsSound text.now object.new) }
{
    let offset = object.sections[i].size;
    if !has_room(offset, 4) {
        return Ok(Err(AsmRule::Large));
    }
    let entry = relocate(text, &mut object.symbols, offset, made.relocation)?;
    add_instruction(&mut object.sections, i, instruction, entry)?;
    Ok(Ok(()))
}

fn add_made<'a>(
    text: &'a [u8],
    line: u32,
    head: StatementHead,
    object: &mut Object<'a>,
    made: RelocatableOp,
) -> Result<Result<(), AsmRule>, AllocError>
    requires sound { IsSound text.now object.old }
    ensures is { IfOk result (λ done. Becomes done object.new (with_made text.now line head (state_of object.old) made)) }
    ensures sound { IfOk result (λ done. IsSound text.now object.new) }
{
    match object.current {
        None => Ok(Err(AsmRule::NoSection)),
        Some(i) => match word_of(head.condition, made.op) {
            None => Ok(Err(AsmRule::Operand)),
            Some(word) => add_word(
                text,
                object,
                i,
                InstrWord {
                    line,
                    chained: head.chained,
                    word,
                },
                made,
            ),
        },
    }
}

fn instruction_fault(object: &Object, head: StatementHead) -> Option<AsmRule>
    requires { IfSome object.now.current (λ i. i < vec_len object.now.sections) }
    ensures { result ≡ instruction_fault (state_of object.now) head }
{
    let behind = is_behind(&object.sections, object.current);
    lowest(
        chain_fault(head.chained, behind),
        place_fault(&object.sections, object.current),
    )
}

/// Adds an instruction, or answers the lowest rule that it breaks.
#[tactic(auto, unfolding(crate::specs::Instructions::instructed))]
pub fn instruct<'a>(
    text: &'a [u8],
    line: u32,
    head: StatementHead,
    operands: &[Operand],
    object: &mut Object<'a>,
) -> Result<Result<(), AsmRule>, AllocError>
    requires sound { IsSound text.now object.old }
    ensures is { IfOk result (λ done. Becomes done object.new (instructed text.now line head operands.now (state_of object.old))) }
    ensures sound { IfOk result (λ done. IsSound text.now object.new) }
{
    match (
        instruction_fault(object, head),
        instruction_of(text, head, operands),
    ) {
        (None, Ok(made)) => add_made(text, line, head, object, made),
        (None, Err(rule)) => Ok(Err(rule)),
        (Some(rule), Ok(_)) => Ok(Err(rule)),
        (Some(rule), Err(other)) => Ok(Err(lower(rule, other))),
    }
}
