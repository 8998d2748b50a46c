ghost use Rattle.std.specs.Prelude.{◌≡◌, ◌^◌, ◌<◌, ◌≤◌, true, IfOk};
ghost use Rattle.std.specs.List.{list_all};
ghost use Rattle.c6x_asm_instr.specs.Bounds.{FitsDirective};
ghost use Rattle.c6x_asm_instr.specs.Directives.{is_visible, is_section_name, section_named, sect_of, numbers_of, space_of, is_power, align_of, name_operand, attribute_of, common_of, set_of, directive_by};
ghost use Rattle.c6x_asm_lines.specs.Bytes.{bytes_at};

use crate::directive::Directive;
use crate::fields::fields_of;
use crate::keyword::Keyword;
use crate::symbol_attribute::SymbolAttribute;
use c6x_asm_lines::{
    AsmRule, Operand, Primary, Range, Value, Word, both, bytes_at, constant_operand,
};
use c6x_base::Row;
use c6x_base::limits::MOST_NAME_BYTES;
use std::alloc::{AllocError, Global};

const ANY_NUMBER: Range = Range {
    below: 0,
    least: 0,
    most: 4_294_967_295,
    step: 1,
    modulus: 4_294_967_296,
};

const ALIGNMENTS: Range = Range {
    below: 0,
    least: 1,
    most: 4_096,
    step: 1,
    modulus: 4_294_967_296,
};

const VALUES: Range = Range {
    below: 2_147_483_648,
    least: 0,
    most: 4_294_967_295,
    step: 1,
    modulus: 4_294_967_296,
};

fn is_section_name(bytes: &[u8]) -> bool
    ensures { result ≡ is_section_name bytes.now }
{
    !bytes.is_empty() && (bytes.len() <= MOST_NAME_BYTES as usize && all_visible(bytes))
}

fn all_visible(bytes: &[u8]) -> bool
    ensures { result ≡ list_all is_visible bytes.now }
{
    bytes.iter().all(|b| *b >= 33 && *b <= 126)
}

#[tactic(auto, unfolding(crate::specs::Directives::section_named))]
fn section_named(text: &[u8], operand: Operand) -> Result<Directive, AsmRule>
    ensures is { result ≡ section_named text.now operand }
    ensures fits { IfOk result FitsDirective }
{
    match operand {
        Operand::Text { at, len } => {
            if is_section_name(bytes_at(text, at, len)) {
                Ok(Directive::Section { at, len })
            } else {
                Err(AsmRule::Syntax)
            }
        }
        _ => Err(AsmRule::Operand),
    }
}

fn sect_of(text: &[u8], operands: &[Operand]) -> Result<Directive, AsmRule>
    ensures is { result ≡ sect_of text.now operands.now }
    ensures fits { IfOk result FitsDirective }
{
    match operands {
        [name] => section_named(text, *name),
        _ => Err(AsmRule::Syntax),
    }
}

fn numbers_of(
    alloc: Global,
    text: &[u8],
    size: u32,
    operands: &[Operand],
) -> Result<Result<Directive, AsmRule>, AllocError>
    requires { size ≤ 4 }
    ensures is { IfOk result (λ read. read ≡ numbers_of text.now size operands.now) }
    ensures fits { IfOk result (λ read. IfOk read FitsDirective) }
{
    match operands {
        [] => Ok(Err(AsmRule::Syntax)),
        _ => match fields_of(alloc, text, size, operands)? {
            Ok(fields) => Ok(Ok(Directive::Numbers {
                size,
                fields: Row::of(fields),
            })),
            Err(rule) => Ok(Err(rule)),
        },
    }
}

fn space_of(operands: &[Operand]) -> Result<Directive, AsmRule>
    ensures is { result ≡ space_of operands.now }
    ensures fits { IfOk result FitsDirective }
{
    match operands {
        [n] => {
            let bytes = constant_operand(ANY_NUMBER, *n)?;
            Ok(Directive::Space(bytes))
        }
        _ => Err(AsmRule::Syntax),
    }
}

fn is_power(n: u32) -> bool
    ensures is { result ≡ is_power n }
    ensures some { result ≡ true → 1 ≤ n }
{
    matches!(
        n,
        1 | 2 | 4 | 8 | 16 | 32 | 64 | 128 | 256 | 512 | 1024 | 2048 | 4096
    )
}

fn align_of(operands: &[Operand]) -> Result<Directive, AsmRule>
    ensures is { result ≡ align_of operands.now }
    ensures fits { IfOk result FitsDirective }
{
    match operands {
        [n] => {
            let align = constant_operand(ALIGNMENTS, *n)?;
            if is_power(align) {
                Ok(Directive::Align(align))
            } else {
                Err(AsmRule::Range)
            }
        }
        _ => Err(AsmRule::Syntax),
    }
}

#[tactic(auto, unfolding(crate::specs::Directives::name_operand))]
fn name_operand(operand: Operand) -> Result<Word, AsmRule>
    ensures { result ≡ name_operand operand }
{
    match operand {
        Operand::Value(Value::Primary(Primary::Symbol { name, addend: None })) => Ok(name),
        _ => Err(AsmRule::Operand),
    }
}

fn attribute_of(attribute: SymbolAttribute, operands: &[Operand]) -> Result<Directive, AsmRule>
    ensures is { result ≡ attribute_of attribute operands.now }
    ensures fits { IfOk result FitsDirective }
{
    match operands {
        [name] => {
            let name = name_operand(*name)?;
            Ok(Directive::Attribute { attribute, name })
        }
        _ => Err(AsmRule::Syntax),
    }
}

fn common_of(near: bool, operands: &[Operand]) -> Result<Directive, AsmRule>
    ensures is { result ≡ common_of near operands.now }
    ensures fits { IfOk result FitsDirective }
{
    match operands {
        [name, size, align] => {
            let size = constant_operand(ANY_NUMBER, *size);
            let align = constant_operand(ANY_NUMBER, *align);
            let (name, (size, align)) = both(name_operand(*name), both(size, align))?;
            Ok(Directive::Common {
                name,
                size,
                align,
                near,
            })
        }
        _ => Err(AsmRule::Syntax),
    }
}

fn set_of(operands: &[Operand]) -> Result<Directive, AsmRule>
    ensures is { result ≡ set_of operands.now }
    ensures fits { IfOk result FitsDirective }
{
    match operands {
        [name, value] => {
            let (name, value) = both(name_operand(*name), constant_operand(VALUES, *value))?;
            Ok(Directive::Set { name, value })
        }
        _ => Err(AsmRule::Syntax),
    }
}

/// The directive of a keyword and its operands, or the lowest rule that they break.
#[tactic(auto, unfolding(crate::specs::Directives::directive_by))]
pub fn directive_of(
    alloc: Global,
    text: &[u8],
    keyword: Keyword,
    operands: &[Operand],
) -> Result<Result<Directive, AsmRule>, AllocError>
    ensures is { IfOk result (λ read. read ≡ directive_by text.now keyword operands.now) }
    ensures fits { IfOk result (λ read. IfOk read FitsDirective) }
{
    match keyword {
        Keyword::Sect => Ok(sect_of(text, operands)),
        Keyword::Word => numbers_of(alloc, text, 4, operands),
        Keyword::Half => numbers_of(alloc, text, 2, operands),
        Keyword::Byte => numbers_of(alloc, text, 1, operands),
        Keyword::Space => Ok(space_of(operands)),
        Keyword::Align => Ok(align_of(operands)),
        Keyword::Global => Ok(attribute_of(SymbolAttribute::Global, operands)),
        Keyword::Weak => Ok(attribute_of(SymbolAttribute::Weak, operands)),
        Keyword::Hidden => Ok(attribute_of(SymbolAttribute::Hidden, operands)),
        Keyword::Common => Ok(common_of(false, operands)),
        Keyword::NearCommon => Ok(common_of(true, operands)),
        Keyword::Set => Ok(set_of(operands)),
    }
}
