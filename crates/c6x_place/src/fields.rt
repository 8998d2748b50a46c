ghost use Rattle.std.specs.Prelude.{◌≡◌, ◌^◌, ◌<◌, length, slice_get, ℕ};
ghost use Rattle.c6x_spec.specs.Firsts.{first_along};
ghost use Rattle.c6x_module.specs.Lookups.{symbols_of};
ghost use Rattle.c6x_place.specs.Binding.{Passes, found_refusal, is_found, name_or, unresolved_from};
ghost use Rattle.c6x_place.specs.Definitions.{field_found, first_export, or_weak};
ghost use Rattle.c6x_place.specs.Members.{fields_of};

use crate::bind_error::BindError;
use crate::bind_rule::BindRule;
use crate::found::Found;
use crate::lookups::{fields_of, find_export, symbols_of};
use crate::rules::check;
use c6x_module::{DynSymbol, Field};
use c6x_modules::Modules;
use std::alloc::Global;

/// The first module of the search list that has an export of this name.
#[tactic(auto, using(crate::proofs::BoundWalks::first_more))]
fn first_export(modules: &Modules, name: &[u8], list: &[u32]) -> Found
    requires short { length list.now < 2 ^ 16 }
    ensures { result ≡ first_export modules.now name.now 0 list.now }
{
    for (position, number) in list.iter().enumerate() {
        if let Some(symbol) = find_export(modules, *number, name) {
            return Found::At {
                position: position as u32,
                symbol,
            };
        }
    }
    Found::Missing
}

/// A weak symbol that is not found stands for nothing.
fn or_weak(weak: bool, found: Found) -> Found
    ensures { result ≡ or_weak weak found }
{
    match found {
        Found::Missing => { if weak { Found::Nothing } else { Found::Missing } }
        Found::Nothing => Found::Nothing,
        Found::At { position, symbol } => Found::At { position, symbol },
    }
}

/// The definition of a field of the module at a position.
#[tactic(auto, unfolding(crate::specs::Definitions::field_found))]
pub fn field_found(
    modules: &Modules,
    list: &[u32],
    position: u32,
    symbols: &[DynSymbol],
    field: &Field,
) -> Found
    requires short { length list.now < 2 ^ 16 }
    ensures { result ≡ field_found modules.now list.now position symbols.now field.now }
{
    if field.symbol == 0 {
        return Found::Nothing;
    }
    match symbols.get(field.symbol as usize) {
        None => Found::Nothing,
        Some(symbol) => {
            if symbol.is_own() {
                Found::At {
                    position,
                    symbol: field.symbol,
                }
            } else {
                or_weak(
                    symbol.is_weak(),
                    first_export(modules, symbol.name.as_bytes(), list),
                )
            }
        }
    }
}

/// The name of a field's symbol, empty where it has none.
pub fn name_or(symbols: &[DynSymbol], symbol: u32) -> &[u8]
    ensures { result.now ≡ name_or (slice_get symbols.now symbol) }
{
    match symbols.get(symbol as usize) {
        Some(symbol) => symbol.name.as_bytes(),
        None => &[],
    }
}

/// The symbol of each field is found, or weak.
#[tactic(auto, using(crate::proofs::BoundWalks::unresolved_more))]
pub fn check_resolved(
    alloc: Global,
    modules: &Modules,
    list: &[u32],
    process: u32,
) -> Result<(), BindError>
    requires short { length list.now < 2 ^ 16 }
    ensures { Passes result (unresolved_from modules.now list.now process 0 list.now) }
{
    for (position, number) in list.iter().enumerate() {
        check_fields(alloc, modules, list, process, position as u32, *number)?;
    }
    Ok(())
}

/// The fields of one member.
#[tactic(auto, using(crate::proofs::BoundWalks::along_more))]
fn check_fields(
    alloc: Global,
    modules: &Modules,
    list: &[u32],
    process: u32,
    position: u32,
    number: u32,
) -> Result<(), BindError>
    requires short { length list.now < 2 ^ 16 }
    ensures { Passes result (first_along (found_refusal modules.now list.now process position number (symbols_of modules.now number)) (fields_of modules.now number)) }
{
    let symbols = symbols_of(modules, number);
    for field in fields_of(modules, number) {
        check_field(
            alloc, modules, list, process, position, number, symbols, field,
        )?;
    }
    Ok(())
}

/// One field.
#[tactic(auto, unfolding(crate::specs::Binding::found_refusal))]
fn check_field(
    alloc: Global,
    modules: &Modules,
    list: &[u32],
    process: u32,
    position: u32,
    number: u32,
    symbols: &[DynSymbol],
    field: &Field,
) -> Result<(), BindError>
    requires short { length list.now < 2 ^ 16 }
    ensures { Passes result (found_refusal modules.now list.now process position number symbols.now field.now) }
{
    let known = is_found(field_found(modules, list, position, symbols, field));
    let name = name_or(symbols, field.symbol);
    check(alloc, known, BindRule::Unresolved, process, number, name)
}

/// There is a definition, or none is wanted.
fn is_found(found: Found) -> bool
    ensures { result ≡ is_found found }
{
    match found {
        Found::Missing => false,
        Found::Nothing | Found::At { .. } => true,
    }
}
