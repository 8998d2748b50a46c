ghost use Rattle.std.specs.Prelude.{◌≡◌, ◌+◌, ◌*◌, ◌≤◌, IfOk, false, length};
ghost use Rattle.std.specs.List.{slice_get};
ghost use Rattle.c6x_elf_headers.specs.Entries.{dynamic_entries, dynamic_of, rela_at, rela_entries, rela_of, symbol_at, symbol_entries, symbol_of};

use crate::dyn_entry::Dyn;
use crate::number::{read_half, read_word};
use crate::rela_entry::Rela;
use crate::symbol_entry::Symbol;
use std::alloc::{AllocError, Global};

/// The symbol with this number, counted from 0; None exactly where it is not wholly in the table.
pub fn symbol(table: &[u8], number: u32) -> Option<Symbol>
    ensures { result ≡ symbol_of false table.now number }
{
    read_symbol(false, table, number)
}

/// The relocation entry with this number, counted from 0; None exactly where it is not wholly in the
/// table.
pub fn rela(table: &[u8], number: u32) -> Option<Rela>
    ensures { result ≡ rela_of false table.now number }
{
    read_rela(false, table, number)
}

/// The dynamic entry with this number, counted from 0; None exactly where it is not wholly in the
/// table.
pub fn dynamic(table: &[u8], number: u32) -> Option<Dyn>
    ensures { result ≡ dynamic_of false table.now number }
{
    read_dynamic(false, table, number)
}

/// `symbol` in either byte order: the entry of the table's list with this number.
#[tactic(auto, using(crate::proofs::EntryRows::symbol_listed, std::proofs::lemmas::Bool::Decides::nat_tests))]
pub fn read_symbol(big: bool, table: &[u8], number: u32) -> Option<Symbol>
    ensures value { result ≡ symbol_of big table.now number }
    ensures listed { result ≡ slice_get (symbol_entries big table.now) number }
{
    if table.len() < 16 * number as usize + 16 {
        return None;
    }
    Some(symbol_in(big, table, number as usize))
}

/// All symbols of a table in order; bytes behind the last whole one are passed over.
#[tactic(auto, unfolding(crate::specs::Entries::symbol_entries), using(crate::proofs::EntryRows::symbols_more))]
pub fn read_symbols(alloc: Global, big: bool, table: &[u8]) -> Result<Vec<Symbol>, AllocError>
    ensures { IfOk result (λ symbols. symbols.items ≡ symbol_entries big table.now) }
{
    let mut symbols = Vec::new(alloc);
    for number in 0..table.len() / 16 {
        symbols.push(symbol_in(big, table, number))?;
    }
    Ok(symbols)
}

/// The symbol with this number, which is wholly in the table.
#[tactic(auto, unfolding(crate::specs::Entries::symbol_at))]
fn symbol_in(big: bool, table: &[u8], number: usize) -> Symbol
    requires { 16 * number + 16 ≤ length table.now }
    ensures { result ≡ symbol_at big table.now number }
{
    let at = 16 * number;
    Symbol {
        name: read_word(big, table, at),
        value: read_word(big, table, at + 4),
        size: read_word(big, table, at + 8),
        info: table[at + 12],
        other: table[at + 13],
        section: read_half(big, table, at + 14),
    }
}

/// `rela` in either byte order: the entry of the table's list with this number.
#[tactic(auto, using(crate::proofs::EntryRows::rela_listed, std::proofs::lemmas::Bool::Decides::nat_tests))]
pub fn read_rela(big: bool, table: &[u8], number: u32) -> Option<Rela>
    ensures value { result ≡ rela_of big table.now number }
    ensures listed { result ≡ slice_get (rela_entries big table.now) number }
{
    if table.len() < 12 * number as usize + 12 {
        return None;
    }
    Some(rela_in(big, table, number as usize))
}

/// All relocation entries of a table in order; bytes behind the last whole one are passed over.
#[tactic(auto, unfolding(crate::specs::Entries::rela_entries), using(crate::proofs::EntryRows::relas_more))]
pub fn read_relas(alloc: Global, big: bool, table: &[u8]) -> Result<Vec<Rela>, AllocError>
    ensures { IfOk result (λ relas. relas.items ≡ rela_entries big table.now) }
{
    let mut relas = Vec::new(alloc);
    for number in 0..table.len() / 12 {
        relas.push(rela_in(big, table, number))?;
    }
    Ok(relas)
}

/// The relocation entry with this number, which is wholly in the table.
#[tactic(auto, unfolding(crate::specs::Entries::rela_at))]
fn rela_in(big: bool, table: &[u8], number: usize) -> Rela
    requires { 12 * number + 12 ≤ length table.now }
    ensures { result ≡ rela_at big table.now number }
{
    let at = 12 * number;
    Rela {
        offset: read_word(big, table, at),
        info: read_word(big, table, at + 4),
        addend: read_word(big, table, at + 8).cast_signed(),
    }
}

/// `dynamic` in either byte order: the entry of the table's list with this number.
#[tactic(auto, unfolding(crate::specs::Entries::dynamic_at), using(crate::proofs::EntryRows::dynamic_listed, std::proofs::lemmas::Bool::Decides::nat_tests))]
pub fn read_dynamic(big: bool, table: &[u8], number: u32) -> Option<Dyn>
    ensures value { result ≡ dynamic_of big table.now number }
    ensures listed { result ≡ slice_get (dynamic_entries big table.now) number }
{
    let at = 8 * number as usize;
    if table.len() < at + 8 {
        return None;
    }
    Some(Dyn {
        tag: read_word(big, table, at),
        value: read_word(big, table, at + 4),
    })
}
