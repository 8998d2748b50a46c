ghost use Rattle.std.specs.Prelude.{◌≡◌, ◌^◌, ◌<◌, length, slice_get, ℕ, IfOk, Option, Some};
ghost use Rattle.c6x_spec.specs.Firsts.{first_along};
ghost use Rattle.c6x_module.specs.Lookups.{symbols_of};
ghost use Rattle.c6x_place.specs.Binding.{Passes, outside_from, outside_refusal};
ghost use Rattle.c6x_place.specs.Definitions.{class_target, field_target, field_value, found_target, inside, is_in_or_at_end, member_target, member_targets, symbol_target, targets_from};
ghost use Rattle.c6x_place.specs.Members.{fields_of};

use crate::bind_error::BindError;
use crate::bind_rule::BindRule;
use crate::fields::{field_found, name_or};
use crate::found::Found;
use crate::lookups::{fields_of, symbols_of};
use crate::rules::check;
use crate::target::Target;
use c6x_base::Row;
use c6x_elf::{SectionClass, Segment};
use c6x_module::{DynSymbol, Field, Module};
use c6x_modules::Modules;
use std::alloc::Global;

/// An address lies in a segment, or at its end.
fn is_in_or_at_end(segment: &Segment, address: u32) -> bool
    ensures { result ≡ is_in_or_at_end segment.now address }
{
    segment.vaddr <= address
        && u64::from(address) <= u64::from(segment.vaddr) + u64::from(segment.memsz)
}

/// What the definition at a position stands for, where its value lies in its module.
fn inside(image: &Module, position: u32, symbol: u32, value: u32) -> Option<Target>
    ensures { result ≡ inside image.now position symbol value }
{
    if is_in_or_at_end(&image.text, value) || is_in_or_at_end(&image.memory, value) {
        Some(Target::Inside { position, symbol })
    } else {
        None
    }
}

/// What a symbol of a module stands for.
fn symbol_target(image: &Module, position: u32, symbol: u32) -> Option<Target>
    ensures { result ≡ symbol_target image.now position symbol (slice_get image.now.symbols symbol) }
{
    match image.symbols.as_slice().get(symbol as usize) {
        None => None,
        Some(held) => class_target(
            image,
            position,
            symbol,
            held.value,
            SectionClass::of_number(held.section),
        ),
    }
}

fn class_target(
    image: &Module,
    position: u32,
    symbol: u32,
    value: u32,
    class: SectionClass,
) -> Option<Target>
    ensures { result ≡ class_target image.now position symbol value class }
{
    match class {
        SectionClass::Undefined => inside(image, position, symbol, value),
        SectionClass::Section(_) => inside(image, position, symbol, value),
        SectionClass::Absolute => Some(Target::Fixed(value)),
        SectionClass::Common | SectionClass::NearCommon => None,
    }
}

/// What the symbol of the module with this number stands for.
fn member_target(modules: &Modules, number: u32, position: u32, symbol: u32) -> Option<Target>
    ensures { result ≡ member_target (slice_get modules.now number) position symbol }
{
    match modules.as_slice().get(number as usize) {
        None => None,
        Some(image) => symbol_target(image, position, symbol),
    }
}

/// What a definition stands for.
fn found_target(modules: &Modules, list: &[u32], found: Found) -> Option<Target>
    ensures { result ≡ found_target modules.now list.now found }
{
    match found {
        Found::Nothing => Some(Target::Zero),
        Found::Missing => None,
        Found::At { position, symbol } => match list.get(position as usize) {
            None => None,
            Some(number) => member_target(modules, *number, position, symbol),
        },
    }
}

/// What a field stands for.
#[tactic(auto, unfolding(crate::specs::Definitions::field_target))]
fn field_target(
    modules: &Modules,
    list: &[u32],
    position: u32,
    symbols: &[DynSymbol],
    field: &Field,
) -> Option<Target>
    requires short { length list.now < 2 ^ 16 }
    ensures { result ≡ field_target modules.now list.now position symbols.now field.now }
{
    found_target(
        modules,
        list,
        field_found(modules, list, position, symbols, field),
    )
}

/// What the fields of the members stand for. Each definition is absolute, or lies inside or at the end of a segment of
/// its module.
#[tactic(auto, using(crate::proofs::BoundWalks::outside_more, crate::proofs::BoundWalks::targets_more))]
pub fn bind_members(
    alloc: Global,
    modules: &Modules,
    list: &[u32],
    process: u32,
) -> Result<Vec<Row<Target>>, BindError>
    requires short { length list.now < 2 ^ 16 }
    ensures passes { Passes result (outside_from modules.now list.now process 0 list.now) }
    ensures value { IfOk result (λ targets. targets.items ≡ targets_from modules.now list.now 0 list.now) }
{
    let mut rows = Vec::new(alloc);
    for (position, number) in list.iter().enumerate() {
        let row = bind_member(alloc, modules, list, process, position as u32, *number)?;
        rows.push(Row::of(row))?;
    }
    Ok(rows)
}

/// What the fields of one member stand for.
#[tactic(auto, using(crate::proofs::BoundWalks::along_more))]
fn bind_member(
    alloc: Global,
    modules: &Modules,
    list: &[u32],
    process: u32,
    position: u32,
    number: u32,
) -> Result<Vec<Target>, BindError>
    requires short { length list.now < 2 ^ 16 }
    ensures passes { Passes result (first_along (outside_refusal modules.now list.now process position number (symbols_of modules.now number)) (fields_of modules.now number)) }
    ensures value { IfOk result (λ targets. targets.items ≡ member_targets modules.now list.now position number) }
{
    let symbols = symbols_of(modules, number);
    let mut targets = Vec::new(alloc);
    for field in fields_of(modules, number) {
        targets.push(bind_field(
            alloc, modules, list, process, position, number, symbols, field,
        )?)?;
    }
    Ok(targets)
}

/// What one field stands for.
#[tactic(auto, unfolding(crate::specs::Binding::outside_refusal))]
fn bind_field(
    alloc: Global,
    modules: &Modules,
    list: &[u32],
    process: u32,
    position: u32,
    number: u32,
    symbols: &[DynSymbol],
    field: &Field,
) -> Result<Target, BindError>
    requires short { length list.now < 2 ^ 16 }
    ensures passes { Passes result (outside_refusal modules.now list.now process position number symbols.now field.now) }
    ensures value { IfOk result (λ target. target ≡ field_value modules.now list.now position symbols.now field.now) }
{
    let target = field_target(modules, list, position, symbols, field);
    let name = name_or(symbols, field.symbol);
    check(
        alloc,
        target.is_some(),
        BindRule::SymbolOutside,
        process,
        number,
        name,
    )?;
    Ok(target.unwrap_or(Target::Zero))
}
