ghost use Rattle.std.specs.Prelude.{◌≡◌, ℕ, ◌+◌, ◌<◌, ◌≤◌, nat_le, List, IfOk, vec_len, length};
ghost use Rattle.c6x_asm_object.specs.Sections.{section_at, padding};
ghost use Rattle.c6x_asm.specs.States.{State, state_of, IsSound, Becomes, placed_fault};
ghost use Rattle.c6x_asm.specs.Directives.{with_field, with_fields, with_space, with_alignment, given_place, common_section, applied};
ghost use Rattle.c6x_asm_instr.specs.Bounds.{FitsDirective};

use crate::relocations::relocate;
use crate::sections::enter;
use crate::symbols::{place, placed_fault, set_attribute};
use c6x_asm_instr::Directive;
use c6x_asm_lines::{AsmRule, Field, Word};
use c6x_asm_object::{Definition, Object, add_align, add_number, add_zeros, padding};
use c6x_elf::abi::{SHN_ABS, SHN_COMMON, SHN_TIC6X_SCOMMON};
use std::alloc::{AllocError, Global};

/// Whether a section of this size may grow by so many bytes.
pub fn has_room(size: u32, count: u32) -> bool
    ensures { result ≡ nat_le (size + count) 1048576 }
{
    u64::from(size) + u64::from(count) <= 1_048_576
}

#[tactic(auto, unfolding(crate::specs::Directives::with_field), using(std::proofs::lemmas::List::get_or_default))]
fn add_field<'a>(
    text: &'a [u8],
    object: &mut Object<'a>,
    i: usize,
    size: u32,
    field: Field,
) -> Result<Result<(), AsmRule>, AllocError>
    requires sound { IsSound text.now object.old }
    requires there { i < vec_len object.old.sections }
    requires few { size ≤ 4 }
    ensures is { IfOk result (λ done. Becomes done object.new (with_field text.now i size (state_of object.old) field)) }
    ensures sections { IfOk result (λ done. vec_len object.new.sections ≡ vec_len object.old.sections) }
    ensures sound { IfOk result (λ done. IsSound text.now object.new) }
{
    let offset = object.sections[i].size;
    if !has_room(offset, size) {
        return Ok(Err(AsmRule::Large));
    }
    let entry = relocate(text, &mut object.symbols, offset, field.relocation)?;
    add_number(&mut object.sections, i, size, field.bits, entry)?;
    Ok(Ok(()))
}

fn add_fields<'a>(
    text: &'a [u8],
    object: &mut Object<'a>,
    i: usize,
    size: u32,
    fields: &[Field],
) -> Result<Result<(), AsmRule>, AllocError>
    requires sound { IsSound text.now object.old }
    requires there { i < vec_len object.old.sections }
    requires few { size ≤ 4 }
    ensures is { IfOk result (λ done. Becomes done object.new (with_fields text.now i size (state_of object.old) fields.now)) }
    ensures sections { IfOk result (λ done. vec_len object.new.sections ≡ vec_len object.old.sections) }
    ensures sound { IfOk result (λ done. IsSound text.now object.new) }
{
    for field in fields {
        if let Err(rule) = add_field(text, object, i, size, *field)? {
            return Ok(Err(rule));
        }
    }
    Ok(Ok(()))
}

#[tactic(auto, using(std::proofs::lemmas::List::get_or_default))]
fn add_space(object: &mut Object, i: usize, count: u32) -> Result<Result<(), AsmRule>, AllocError>
    requires there { i < vec_len object.old.sections }
    ensures is { IfOk result (λ done. Becomes done object.new (with_space count (state_of object.old) i)) }
    ensures sections { IfOk result (λ done. vec_len object.new.sections ≡ vec_len object.old.sections) }
    ensures sound { IfOk result (λ done. (text : List ℕ) → IsSound text object.old → IsSound text object.new) }
{
    let size = object.sections[i].size;
    if !has_room(size, count) {
        return Ok(Err(AsmRule::Large));
    }
    add_zeros(&mut object.sections, i, count)?;
    Ok(Ok(()))
}

#[tactic(auto, using(std::proofs::lemmas::List::get_or_default))]
fn align_to(object: &mut Object, i: usize, align: u32) -> Result<Result<(), AsmRule>, AllocError>
    requires there { i < vec_len object.old.sections }
    requires some { 1 ≤ align }
    ensures is { IfOk result (λ done. Becomes done object.new (with_alignment align (state_of object.old) i)) }
    ensures sections { IfOk result (λ done. vec_len object.new.sections ≡ vec_len object.old.sections) }
    ensures sound { IfOk result (λ done. (text : List ℕ) → IsSound text object.old → IsSound text object.new) }
{
    let size = object.sections[i].size;
    if !has_room(size, padding(size, align)) {
        return Ok(Err(AsmRule::Large));
    }
    add_align(&mut object.sections, i, align)?;
    Ok(Ok(()))
}

fn give_place<'a>(
    text: &'a [u8],
    object: &mut Object<'a>,
    word: Word,
    definition: Definition,
) -> Result<Result<(), AsmRule>, AllocError>
    requires sound { IsSound text.now object.old }
    ensures is { IfOk result (λ done. Becomes done object.new (given_place text.now (state_of object.old) word definition (placed_fault text.now object.old.symbols.list.items word))) }
    ensures sound { IfOk result (λ done. IsSound text.now object.new) }
{
    match placed_fault(text, &object.symbols, word) {
        Some(rule) => Ok(Err(rule)),
        None => {
            place(text, &mut object.symbols, word, definition)?;
            Ok(Ok(()))
        }
    }
}

fn common_section(near: bool) -> usize
    ensures { result ≡ common_section near }
{
    usize::from(if near { SHN_TIC6X_SCOMMON } else { SHN_COMMON })
}

/// What a directive adds, or the rule that it breaks.
#[tactic(auto, unfolding(crate::specs::Directives::applied))]
pub fn apply<'a>(
    alloc: Global,
    text: &'a [u8],
    object: &mut Object<'a>,
    directive: &Directive,
) -> Result<Result<(), AsmRule>, AllocError>
    requires sound { IsSound text.now object.old }
    requires fits { FitsDirective directive.now }
    ensures is { IfOk result (λ done. Becomes done object.new (applied text.now (state_of object.old) directive.now)) }
    ensures sound { IfOk result (λ done. IsSound text.now object.new) }
{
    match directive {
        Directive::Section { at, len } => {
            enter(alloc, text, object, *at, *len)?;
            Ok(Ok(()))
        }
        Directive::Numbers { size, fields } => match object.current {
            None => Ok(Err(AsmRule::NoSection)),
            Some(i) => add_fields(text, object, i, *size, fields.as_slice()),
        },
        Directive::Space(count) => match object.current {
            None => Ok(Err(AsmRule::NoSection)),
            Some(i) => add_space(object, i, *count),
        },
        Directive::Align(align) => match object.current {
            None => Ok(Err(AsmRule::NoSection)),
            Some(i) => align_to(object, i, *align),
        },
        Directive::Attribute {
            attribute: kind,
            name,
        } => {
            set_attribute(text, &mut object.symbols, *name, *kind)?;
            Ok(Ok(()))
        }
        Directive::Common {
            name,
            size,
            align,
            near,
        } => {
            let definition = Definition {
                section: common_section(*near),
                value: *align,
                size: *size,
            };
            give_place(text, object, *name, definition)
        }
        Directive::Set { name, value } => {
            let definition = Definition {
                section: usize::from(SHN_ABS),
                value: *value,
                size: 0,
            };
            give_place(text, object, *name, definition)
        }
    }
}
