ghost use Rattle.std.specs.Prelude.{◌≡◌, ◌<◌, ◌++◌, IfOk, OnOk, length, map};
ghost use Rattle.c6x_symbols.specs.Bindings.{exports_of, imports_of};
ghost use Rattle.c6x_link.specs.Exports.{export_of, import_info, import_of, info_of, other_of, section_number, shared_of, size_of, source_symbol};

use crate::address::bound_address;
use crate::link_value::Link;
use c6x_base::{Name, Row};
use c6x_elf::abi::{SHN_ABS, SHN_UNDEF, STT_NOTYPE};
use c6x_elf::{Symbol, SymbolBinding, info_of};
use c6x_layout::Shared;
use c6x_symbols::Region;
use std::alloc::{AllocError, Global};

/// The number of the section of an export.
fn section_number(region: Region) -> u16
    ensures { result ≡ section_number region }
{
    match region {
        Region::Text => 1,
        Region::Data => 2,
        Region::Absolute => SHN_ABS,
        Region::Import => SHN_UNDEF,
    }
}

/// The symbol that an export is written from.
#[tactic(auto, unfolding(crate::specs::Exports::source_symbol))]
fn source_symbol(link: &Link, number: u32) -> Option<Symbol>
    requires { number < length link.now.bindings }
    ensures { result ≡ source_symbol link.now number }
{
    match link.bindings().source(number) {
        Some(source) => link.symbol(source.object, source.symbol),
        None => None,
    }
}

/// The size of a symbol.
fn size_of(symbol: Option<Symbol>) -> u32
    ensures { result ≡ size_of symbol }
{
    match symbol {
        Some(symbol) => symbol.size,
        None => 0,
    }
}

/// The info of a symbol.
fn symbol_info(symbol: Option<Symbol>) -> u8
    ensures { result ≡ info_of symbol }
{
    match symbol {
        Some(symbol) => symbol.info,
        None => 0,
    }
}

/// The other of a symbol.
fn other_of(symbol: Option<Symbol>) -> u8
    ensures { result ≡ other_of symbol }
{
    match symbol {
        Some(symbol) => symbol.other,
        None => 0,
    }
}

/// An export.
#[tactic(auto, unfolding(crate::specs::Exports::export_of))]
fn export_of(alloc: Global, link: &Link, number: u32) -> Result<Shared, AllocError>
    requires { number < length link.now.bindings }
    ensures { IfOk result (λ shared. shared ≡ export_of link.now number) }
{
    let symbol = source_symbol(link, number);
    Ok(Shared {
        name: Name::from_bytes(alloc, link.bindings().name(number))?,
        value: bound_address(link, number),
        size: size_of(symbol),
        info: symbol_info(symbol),
        other: other_of(symbol),
        section: section_number(link.bound_region(number)),
    })
}

/// The info of an import.
fn import_info(weak: bool) -> u8
    ensures { result ≡ import_info weak }
{
    if weak {
        info_of(SymbolBinding::Weak, STT_NOTYPE)
    } else {
        info_of(SymbolBinding::Global, STT_NOTYPE)
    }
}

/// An import.
#[tactic(auto, unfolding(crate::specs::Exports::import_of))]
fn import_of(alloc: Global, link: &Link, number: u32) -> Result<Shared, AllocError>
    requires { number < length link.now.bindings }
    ensures { IfOk result (λ shared. shared ≡ import_of link.now number) }
{
    Ok(Shared {
        name: Name::from_bytes(alloc, link.bindings().name(number))?,
        value: 0,
        size: 0,
        info: import_info(link.bindings().group(number).all_weak),
        other: 0,
        section: SHN_UNDEF,
    })
}

/// Puts the exports, in order.
#[tactic(auto, unfolding(c6x_symbols::specs::Bindings::exports_of), using(c6x_symbols::proofs::Bound::numbers_here, c6x_symbols::proofs::Bound::numbers_past))]
fn put_exports(alloc: Global, row: &mut Row<Shared>, link: &Link) -> Result<(), AllocError>
    ensures { OnOk result (row.new ≡ row.old ++ map (export_of link.now) (exports_of link.now.bindings)) }
{
    let bindings = link.bindings();
    for number in 0..bindings.len() {
        if bindings.is_exported(number) {
            row.push(export_of(alloc, link, number)?)?;
        }
    }
    Ok(())
}

/// Puts the imports, in order.
#[tactic(auto, unfolding(c6x_symbols::specs::Bindings::imports_of), using(c6x_symbols::proofs::Bound::numbers_here, c6x_symbols::proofs::Bound::numbers_past))]
fn put_imports(alloc: Global, row: &mut Row<Shared>, link: &Link) -> Result<(), AllocError>
    ensures { OnOk result (row.new ≡ row.old ++ map (import_of link.now) (imports_of link.now.bindings)) }
{
    let bindings = link.bindings();
    for number in 0..bindings.len() {
        if bindings.is_imported(number) {
            row.push(import_of(alloc, link, number)?)?;
        }
    }
    Ok(())
}

/// The dynamic symbols of a link: the exports, and then the imports, each in order of first appearance.
#[tactic(auto, unfolding(crate::specs::Exports::shared_of))]
pub fn shared_of(alloc: Global, link: &Link) -> Result<Row<Shared>, AllocError>
    ensures { IfOk result (λ shared. shared ≡ shared_of link.now) }
{
    let mut row = Row::new(alloc);
    put_exports(alloc, &mut row, link)?;
    put_imports(alloc, &mut row, link)?;
    Ok(row)
}
