ghost use Rattle.std.specs.Prelude.{◌≡◌, ◌++◌, ◌∷◌, [], ◌^◌, ◌<◌, ◌≤◌, List, Result, Ok, Err, Vec, IfOk, OnOk};
ghost use Rattle.c6x_asm_instr.specs.Directives.{number_field, sized_field, with_field, fields_from, fields_of};
ghost use Rattle.c6x_asm_instr.specs.Fields.{sofar, IsFields};

use c6x_asm_lines::{AsmRule, Field, Operand, Range, constant_operand, field_operand, lower};
use c6x_reloc::RelocKind;
use std::alloc::{AllocError, Global};

const WORDS: Range = Range {
    below: 2_147_483_648,
    least: 0,
    most: 4_294_967_295,
    step: 1,
    modulus: 4_294_967_296,
};

const HALVES: Range = Range {
    below: 32_768,
    least: 0,
    most: 65_535,
    step: 1,
    modulus: 65_536,
};

const BYTES: Range = Range {
    below: 128,
    least: 0,
    most: 255,
    step: 1,
    modulus: 256,
};

#[tactic(auto, unfolding(crate::specs::Directives::sized_field))]
fn sized_field(text: &[u8], size: u32, operand: Operand) -> Result<Field, AsmRule>
    ensures { result ≡ sized_field text.now size operand }
{
    match size {
        4 => field_operand(text, RelocKind::ABS32, WORDS, operand),
        2 => {
            let bits = constant_operand(HALVES, operand)?;
            Ok(Field {
                bits,
                relocation: None,
            })
        }
        _ => {
            let bits = constant_operand(BYTES, operand)?;
            Ok(Field {
                bits,
                relocation: None,
            })
        }
    }
}

fn push(
    fields: &mut Vec<Field>,
    fault: Option<AsmRule>,
    field: Result<Field, AsmRule>,
) -> Result<Option<AsmRule>, AllocError>
    ensures { IfOk result (λ now. sofar fields.new.items now ≡ with_field (sofar fields.old.items fault) field) }
{
    match (fault, field) {
        (None, Ok(field)) => {
            fields.push(field).map_err(AllocError::from)?;
            Ok(None)
        }
        (None, Err(rule)) => Ok(Some(rule)),
        (Some(rule), Ok(_)) => Ok(Some(rule)),
        (Some(before), Err(rule)) => Ok(Some(lower(before, rule))),
    }
}

/// The numbers of these operands, of so many bytes each, or the lowest rule that they break.
#[tactic(auto, unfolding(crate::specs::Directives::fields_of))]
pub fn fields_of(
    alloc: Global,
    text: &[u8],
    size: u32,
    operands: &[Operand],
) -> Result<Result<Vec<Field>, AsmRule>, AllocError>
    ensures { IfOk result (λ fields. IsFields fields (fields_of text.now size operands.now)) }
{
    let mut fields = Vec::new(alloc);
    let mut fault = None;
    for operand in operands {
        fault = push(&mut fields, fault, sized_field(text, size, *operand))?;
    }
    match fault {
        None => Ok(Ok(fields)),
        Some(rule) => Ok(Err(rule)),
    }
}
