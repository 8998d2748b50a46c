ghost use Rattle.std.specs.Prelude.{◌≡◌, None};
ghost use Rattle.c6x_asm_instr.specs.Kinds.{stands_wrong, kind_fault, value_fault, offset_fault, operand_fault, kinds_from};
ghost use Rattle.c6x_asm_lines.specs.Rules.{lowest};

use c6x_asm_lines::{AsmRule, Offset, Operand, Primary, Value, bytes_at, kind_of, lowest};
use c6x_reloc::RelocKind;

fn stands_wrong(kind: RelocKind, inner: Option<Primary>) -> bool
    ensures { result ≡ stands_wrong kind inner }
{
    match (kind, inner) {
        (RelocKind::DSBT_INDEX, None) => false,
        (RelocKind::DSBT_INDEX, Some(_)) => true,
        (_, None) => true,
        (_, Some(_)) => false,
    }
}

fn kind_fault(kind: Option<RelocKind>, inner: Option<Primary>) -> Option<AsmRule>
    ensures { result ≡ kind_fault kind inner }
{
    match kind {
        None => Some(AsmRule::UnknownWord),
        Some(kind) => {
            if stands_wrong(kind, inner) {
                Some(AsmRule::Syntax)
            } else {
                None
            }
        }
    }
}

fn value_fault(text: &[u8], value: Value) -> Option<AsmRule>
    ensures { result ≡ value_fault text.now value }
{
    match value {
        Value::Primary(_) => None,
        Value::Kind { kind, inner } => kind_fault(
            kind_of(bytes_at(text, kind.at, kind.len)),
            inner,
        ),
    }
}

fn offset_fault(text: &[u8], offset: Offset) -> Option<AsmRule>
    ensures { result ≡ offset_fault text.now offset }
{
    match offset {
        Offset::Missing => None,
        Offset::Bracket(value) | Offset::Parenthesis(value) => value_fault(text, value),
    }
}

#[tactic(auto, unfolding(crate::specs::Kinds::operand_fault))]
fn operand_fault(text: &[u8], operand: Operand) -> Option<AsmRule>
    ensures { result ≡ operand_fault text.now operand }
{
    match operand {
        Operand::Text { .. } => None,
        Operand::Address(address) => offset_fault(text, address.offset),
        Operand::Value(value) => value_fault(text, value),
    }
}

/// The lowest rule that the kinds of these operands break.
pub fn kinds_fault(text: &[u8], operands: &[Operand]) -> Option<AsmRule>
    ensures { result ≡ kinds_from text.now None operands.now }
{
    let mut fault = None;
    for operand in operands {
        fault = lowest(fault, operand_fault(text, *operand));
    }
    fault
}
