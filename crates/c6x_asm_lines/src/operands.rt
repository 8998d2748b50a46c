ghost use Rattle.std.specs.Prelude.{◌≡◌, ◌≤◌, ◌+◌, ◌++◌, ◌∷◌, [], length, take, drop, IfOk, OnOk};
ghost use Rattle.std.specs.List.{position_or_len};
ghost use Rattle.c6x_asm_lines.specs.Operands.{IsList};
ghost use Rattle.c6x_asm_lines.specs.Grammar.{read_operand, whole_operand, is_comma, operands_of};

use crate::addresses::read_address;
use crate::lexeme::Lexeme;
use crate::operand::Operand;
use crate::parts::read_value;
use crate::punctuator::Punctuator;
use crate::remaining::Remaining;
use std::alloc::{AllocError, Global};

#[tactic(auto, unfolding(crate::specs::Grammar::read_operand))]
fn read_operand<'t>(lexemes: &'t [Lexeme]) -> Option<(Operand, Remaining<'t>)>
    ensures { result ≡ read_operand lexemes.now }
{
    match lexemes {
        [Lexeme::Text { at, len }, rest @ ..] => Some((
            Operand::Text { at: *at, len: *len },
            Remaining::of(rest),
        )),
        [Lexeme::Punctuator(Punctuator::Star), rest @ ..] => {
            let (address, rest) = read_address(rest)?;
            Some((Operand::Address(address), rest))
        }
        _ => {
            let (value, rest) = read_value(lexemes)?;
            Some((Operand::Value(value), rest))
        }
    }
}

// The operand that these lexemes are as a whole.
#[tactic(auto, unfolding(crate::specs::Grammar::whole_operand))]
fn whole_operand(lexemes: &[Lexeme]) -> Option<Operand>
    ensures { result ≡ whole_operand lexemes.now }
{
    let (operand, rest) = read_operand(lexemes)?;
    match rest.lexemes() {
        [] => Some(operand),
        _ => None,
    }
}

// Where the first comma is, or the end.
fn comma_at(lexemes: &[Lexeme]) -> usize
    ensures place { result ≡ position_or_len is_comma lexemes.now }
    ensures within { result ≤ length lexemes.now }
{
    let mut n = 0;
    for lexeme in lexemes {
        if matches!(lexeme, Lexeme::Punctuator(Punctuator::Comma)) {
            return n;
        }
        n += 1;
    }
    n
}

// The end of the operand that begins at an index, counted from there, and the operand.
#[tactic(auto, using(std::proofs::lemmas::List::take_rest))]
fn operand_at(lexemes: &[Lexeme], from: usize) -> (usize, Option<Operand>)
    requires { from ≤ length lexemes.now }
    ensures end { result.0 ≡ position_or_len is_comma (drop from lexemes.now) }
    ensures within { from + result.0 ≤ length lexemes.now }
    ensures operand { result.1 ≡ whole_operand (take result.0 (drop from lexemes.now)) }
{
    let rest = &lexemes[from..];
    let end = comma_at(rest);
    (end, whole_operand(&rest[..end]))
}

fn push(operands: &mut Vec<Operand>, operand: Operand) -> Result<(), AllocError>
    ensures { OnOk result (operands.new.items ≡ operands.old.items ++ operand ∷ []) }
{
    operands.push(operand).map_err(AllocError::from)
}

/// The operands that these lexemes are, with commas between them. None where one does not read.
#[tactic(auto, using(crate::proofs::Pieces::begins, crate::proofs::Pieces::fails_at, crate::proofs::Pieces::ends_at, crate::proofs::Pieces::none))]
pub fn operands_of(alloc: Global, lexemes: &[Lexeme]) -> Result<Option<Vec<Operand>>, AllocError>
    ensures { IfOk result (λ read. IsList read (operands_of lexemes.now)) }
{
    let mut operands = Vec::new(alloc);
    if lexemes.is_empty() {
        return Ok(Some(operands));
    }
    let mut from = 0;
    loop {
        let (end, operand) = operand_at(lexemes, from);
        let Some(operand) = operand else {
            return Ok(None);
        };
        push(&mut operands, operand)?;
        if from + end == lexemes.len() {
            return Ok(Some(operands));
        }
        from += end + 1;
    }
}
