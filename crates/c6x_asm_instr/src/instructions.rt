ghost use Rattle.std.specs.Prelude.{◌≡◌, length};
ghost use Rattle.c6x_asm_instr.specs.Instructions.{has_count, may_be_conditional, has_unit, made_by, with_unit, unit_named, is_conditional, is_nop, with_mnemonic, instruction_of};

use crate::branches::{add_kpc_of, branch_nop_of, branch_of, callp_of, nop_of};
use crate::memory::memory_on;
use crate::operations::{move_of, two_of};
use crate::units::{has_form, is_cross, is_d, is_own, is_s, names_value};
use c6x_asm_lines::{
    AsmRule, Mnemonic, Operand, RelocatableOp, StatementHead, Unit, Word, bytes_at, mnemonic_of,
    same_side, unit_of,
};
use c6x_base::Side;
use c6x_encoding::Cond;

fn has_count(mnemonic: Mnemonic, count: usize) -> bool
    ensures { result ≡ has_count mnemonic count }
{
    match mnemonic {
        Mnemonic::Two(_) | Mnemonic::AddKpc => count == 3,
        Mnemonic::Move(_) | Mnemonic::Bnop | Mnemonic::Callp | Mnemonic::Memory(_) => count == 2,
        Mnemonic::B => count == 1,
        Mnemonic::Nop => count == 0 || count == 1,
    }
}

fn may_be_conditional(mnemonic: Mnemonic) -> bool
    ensures { result ≡ may_be_conditional mnemonic }
{
    match mnemonic {
        Mnemonic::Callp | Mnemonic::Nop => false,
        _ => true,
    }
}

fn has_unit(mnemonic: Mnemonic, unit: Unit) -> bool
    ensures { result ≡ has_unit mnemonic unit }
{
    match mnemonic {
        Mnemonic::Two(arith) => has_form(unit.kind, arith, false) && !names_value(unit.path),
        Mnemonic::Move(_) | Mnemonic::Callp => is_s(unit.kind) && is_own(unit.path),
        Mnemonic::B | Mnemonic::Bnop => is_s(unit.kind)
            && (is_own(unit.path) || (same_side(unit.side, Side::B) && is_cross(unit.path))),
        Mnemonic::AddKpc => is_s(unit.kind) && (same_side(unit.side, Side::B) && is_own(unit.path)),
        Mnemonic::Nop => false,
        Mnemonic::Memory(_) => is_d(unit.kind) && names_value(unit.path),
    }
}

#[tactic(auto, unfolding(crate::specs::Instructions::made_by))]
fn made_by(
    text: &[u8],
    mnemonic: Mnemonic,
    unit: Unit,
    operands: &[Operand],
) -> Result<RelocatableOp, AsmRule>
    ensures { result ≡ made_by text.now mnemonic unit operands.now }
{
    match mnemonic {
        Mnemonic::Two(arith) => two_of(arith, unit, operands),
        Mnemonic::Move(kind) => move_of(text, kind, unit, operands),
        Mnemonic::B => branch_of(text, unit, operands),
        Mnemonic::Bnop => branch_nop_of(text, unit, operands),
        Mnemonic::Callp => callp_of(text, unit, operands),
        Mnemonic::AddKpc => add_kpc_of(text, operands),
        Mnemonic::Nop => nop_of(operands),
        Mnemonic::Memory(access) => memory_on(text, access, unit.side, unit.path, operands),
    }
}

fn with_unit(
    text: &[u8],
    mnemonic: Mnemonic,
    unit: Option<Unit>,
    operands: &[Operand],
) -> Result<RelocatableOp, AsmRule>
    ensures { result ≡ with_unit text.now mnemonic unit operands.now }
{
    match unit {
        None => Err(AsmRule::UnknownWord),
        Some(unit) => {
            if has_unit(mnemonic, unit) {
                made_by(text, mnemonic, unit, operands)
            } else {
                Err(AsmRule::Syntax)
            }
        }
    }
}

fn unit_named(text: &[u8], word: Option<Word>) -> Option<Unit>
    ensures { result ≡ unit_named text.now word }
{
    match word {
        None => None,
        Some(word) => unit_of(bytes_at(text, word.at, word.len)),
    }
}

fn is_conditional(condition: Cond) -> bool
    ensures { result ≡ is_conditional condition }
{
    match condition {
        Cond::Always => false,
        _ => true,
    }
}

fn is_nop(mnemonic: Mnemonic) -> bool
    ensures { result ≡ is_nop mnemonic }
{
    matches!(mnemonic, Mnemonic::Nop)
}

fn with_mnemonic(
    text: &[u8],
    head: StatementHead,
    mnemonic: Option<Mnemonic>,
    operands: &[Operand],
) -> Result<RelocatableOp, AsmRule>
    ensures { result ≡ with_mnemonic text.now head mnemonic operands.now }
{
    match mnemonic {
        None => Err(AsmRule::UnknownWord),
        Some(mnemonic) => {
            if !has_count(mnemonic, operands.len())
                || (is_conditional(head.condition) && !may_be_conditional(mnemonic))
            {
                Err(AsmRule::Syntax)
            } else if is_nop(mnemonic) {
                nop_of(operands)
            } else {
                with_unit(text, mnemonic, unit_named(text, head.unit), operands)
            }
        }
    }
}

/// The operation that a line's words and operands name and the relocation of its field, or the
/// lowest rule that they break.
#[tactic(auto, unfolding(crate::specs::Instructions::instruction_of))]
pub fn instruction_of(
    text: &[u8],
    head: StatementHead,
    operands: &[Operand],
) -> Result<RelocatableOp, AsmRule>
    ensures { result ≡ instruction_of text.now head operands.now }
{
    with_mnemonic(
        text,
        head,
        mnemonic_of(bytes_at(text, head.word.at, head.word.len)),
        operands,
    )
}
