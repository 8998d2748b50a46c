ghost use Rattle.std.specs.Prelude.{◌≡◌, ◌+◌, ◌^◌, ◌<◌, false, [], ◌∷◌, ◌++◌, All, OnOk, IfOk};
ghost use Rattle.c6x_elf.specs.EntryRows.{symbol_rows};
ghost use Rattle.c6x_asm_object.specs.FormSymbols.{name_entries, name_entry, null_entry, section_entries, section_entry, symbol_table};
ghost use Rattle.c6x_asm_object.specs.Symbols.{names_total};
ghost use Rattle.c6x_asm_object.specs.Fitting.{IsPlaced};
ghost use Rattle.c6x_asm_object.specs.FileNames.{group};

use crate::binding::{binding, definition_or_none, is_in, visibility};
use crate::symbol::Symbol;
use c6x_asm_lines::bytes_at;
use c6x_elf::abi::{SHN_UNDEF, STT_NOTYPE, STT_SECTION, STV_DEFAULT};
use c6x_elf::{Symbol as Entry, SymbolBinding, info_of, put_symbol};
use std::alloc::{AllocError, Global};

fn null_entry() -> Entry
    ensures { result ≡ null_entry }
{
    Entry {
        name: 0,
        value: 0,
        size: 0,
        info: info_of(SymbolBinding::Local, STT_NOTYPE),
        other: STV_DEFAULT,
        section: SHN_UNDEF,
    }
}

fn section_entry(number: u16) -> Entry
    ensures { result ≡ section_entry number }
{
    Entry {
        name: 0,
        value: 0,
        size: 0,
        info: info_of(SymbolBinding::Local, STT_SECTION),
        other: STV_DEFAULT,
        section: number,
    }
}

fn name_entry(name: u32, symbol: Symbol) -> Entry
    requires { IsPlaced symbol }
    ensures { result ≡ name_entry name symbol }
{
    let definition = definition_or_none(symbol.definition);
    Entry {
        name,
        value: definition.value,
        size: definition.size,
        info: info_of(binding(symbol), STT_NOTYPE),
        other: visibility(symbol),
        section: definition.section as u16,
    }
}

// A symbol, if it is of the group; the answer is the offset of the next name.
#[tactic(auto, unfolding(crate::specs::FileNames::group))]
fn put_if(
    text: &[u8],
    local: bool,
    bytes: &mut Vec<u8>,
    name: u32,
    symbol: Symbol,
) -> Result<u32, AllocError>
    requires names { name + names_total text.now (group local (symbol ∷ [])) < 2 ^ 32 }
    requires placed { IsPlaced symbol }
    ensures bytes { OnOk result (bytes.new.items ≡ bytes.old.items ++ symbol_rows false (name_entries text.now name (group local (symbol ∷ [])))) }
    ensures name { IfOk result (λ next. next ≡ name + names_total text.now (group local (symbol ∷ []))) }
{
    if is_in(local, symbol) {
        put_symbol(bytes, false, &name_entry(name, symbol))?;
        let len = bytes_at(text, symbol.at, symbol.len).len();
        Ok(name + (len as u32 + 1))
    } else {
        Ok(name)
    }
}

// The symbols of a group; the answer is the offset of the next name.
#[tactic(auto, using(crate::proofs::GroupNames::total_at, crate::proofs::GroupNames::total_within, crate::proofs::GroupNames::total_end, crate::proofs::GroupNames::rows_at, crate::proofs::GroupNames::rows_end))]
fn put_group(
    text: &[u8],
    local: bool,
    bytes: &mut Vec<u8>,
    name: u32,
    symbols: &[Symbol],
) -> Result<u32, AllocError>
    requires names { name + names_total text.now (group local symbols.now) < 2 ^ 32 }
    requires placed { All IsPlaced symbols.now }
    ensures bytes { OnOk result (bytes.new.items ≡ bytes.old.items ++ symbol_rows false (name_entries text.now name (group local symbols.now))) }
    ensures name { IfOk result (λ next. next ≡ name + names_total text.now (group local symbols.now)) }
{
    let mut next = name;
    for symbol in symbols {
        next = put_if(text, local, bytes, next, *symbol)?;
    }
    Ok(next)
}

#[tactic(auto, using(crate::proofs::GroupNames::sections_at, crate::proofs::GroupNames::sections_end))]
fn put_sections(bytes: &mut Vec<u8>, count: usize) -> Result<(), AllocError>
    requires { count < 2 ^ 16 }
    ensures { OnOk result (bytes.new.items ≡ bytes.old.items ++ symbol_rows false (section_entries 1 count)) }
{
    for i in 0..count {
        put_symbol(bytes, false, &section_entry(i as u16 + 1))?;
    }
    Ok(())
}

/// The symbol table of an object with so many sections and these names.
#[tactic(auto, using(crate::proofs::GroupNames::table_put, crate::proofs::GroupNames::names_first, crate::proofs::GroupNames::groups_total))]
pub fn symbol_table(
    alloc: Global,
    text: &[u8],
    sections: usize,
    symbols: &[Symbol],
) -> Result<Vec<u8>, AllocError>
    requires few { sections < 2 ^ 16 }
    requires names { 1 + names_total text.now symbols.now < 2 ^ 32 }
    requires placed { All IsPlaced symbols.now }
    ensures { IfOk result (λ bytes. bytes.items ≡ symbol_table text.now sections symbols.now) }
{
    let mut bytes = Vec::new(alloc);
    put_symbol(&mut bytes, false, &null_entry())?;
    put_sections(&mut bytes, sections)?;
    let name = put_group(text, true, &mut bytes, 1, symbols)?;
    put_group(text, false, &mut bytes, name, symbols)?;
    Ok(bytes)
}
