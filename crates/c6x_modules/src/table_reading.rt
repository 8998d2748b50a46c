ghost use Rattle.std.specs.Prelude.{◌≡◌, ℕ, ◌+◌, ◌*◌, ◌^◌, ◌<◌, ◌≤◌, IfOk, List, length};
ghost use Rattle.c6x_elf.specs.TableEntries.{rela_at};
ghost use Rattle.c6x_module.specs.Refusals.{Answers};
ghost use Rattle.c6x_module.specs.Tables.{is_outside, jumps_of, tables_in, tables_of};
ghost use Rattle.c6x_modules.specs.Seen.{tables_seen};

use crate::entry_rows::EntryRows;
use crate::slices::{count_symbols, find_table, need_bytes};
use c6x_elf::abi::{DT_JMPREL, DT_PLTRELSZ, DT_RELA, DT_RELASZ, DT_STRTAB, DT_SYMTAB};
use c6x_elf::{Dyn, Rela, Segment, read_relas, read_symbols};
use c6x_elf_headers::read_word;
use c6x_module::{ModuleError, find_addresses};
use std::alloc::{AllocError, Global};

/// The tables that the dynamic entries name: their entries, and their strings. L11 comes exactly where a table is missing
/// or does not lie wholly in the file bytes of one of the two segments.
#[tactic(auto, unfolding(c6x_module::specs::Tables::tables_in))]
pub fn read_tables<'a>(
    alloc: Global,
    big: bool,
    text: &'a Segment,
    range: &'a Segment,
    entries: &[Dyn],
) -> Result<(EntryRows, &'a [u8]), ModuleError>
    ensures { Answers (λ read. tables_seen read.0 read.1.now) result (tables_in big text.now range.now entries.now) }
{
    let at = find_addresses(entries)?;
    let count = count_symbols(big, text, range, at.hash)?;
    let strings = need_bytes(text, range, DT_STRTAB, at.strings, u64::from(at.size))?;
    let symbols = need_bytes(text, range, DT_SYMTAB, at.symbols, 16 * u64::from(count))?;
    let rela = find_table(text, range, entries, DT_RELA, DT_RELASZ)?;
    let jump = find_table(text, range, entries, DT_JMPREL, DT_PLTRELSZ)?;
    let rows = read_rows(alloc, big, symbols, rela.0, rela.1, jump.0, jump.1)?;
    Ok((rows, strings))
}

/// The entries of the tables' bytes, where RELA stands at `from` and JMPREL at `at`.
#[tactic(auto, unfolding(c6x_module::specs::Tables::tables_of))]
fn read_rows(
    alloc: Global,
    big: bool,
    symbols: &[u8],
    from: u32,
    relas: &[u8],
    at: u32,
    jumps: &[u8],
) -> Result<EntryRows, AllocError>
    requires { length relas.now < 2 ^ 32 }
    ensures { IfOk result (λ rows. (strings : List ℕ) → tables_seen rows strings ≡ tables_of big strings symbols.now (from, relas.now) (at, jumps.now)) }
{
    let count = relas.len() as u32;
    let symbols = read_symbols(alloc, big, symbols)?;
    let relas = read_relas(alloc, big, relas)?;
    let jumps = read_jumps(alloc, big, at, jumps, from, count)?;
    Ok(EntryRows {
        symbols,
        relas,
        jumps,
    })
}

/// The entries of a table at `at` that do not lie wholly in the `count` bytes at `from`.
#[tactic(auto, unfolding(c6x_module::specs::Tables::jumps_of))]
fn read_jumps(
    alloc: Global,
    big: bool,
    at: u32,
    bytes: &[u8],
    from: u32,
    count: u32,
) -> Result<Vec<Rela>, AllocError>
    ensures { IfOk result (λ jumps. jumps.items ≡ jumps_of big at bytes.now from count) }
{
    let mut jumps = Vec::new(alloc);
    for number in 0..bytes.len() / 12 {
        if is_outside(at, from, count, number) {
            jumps.push(rela_at(big, bytes, number))?;
        }
    }
    Ok(jumps)
}

/// The entry with this number does not lie wholly in the `count` bytes at `from`.
#[tactic(auto, unfolding(c6x_module::specs::Tables::is_outside))]
fn is_outside(at: u32, from: u32, count: u32, number: usize) -> bool
    requires { 12 * number < 2 ^ 63 }
    ensures { result ≡ is_outside at from count number }
{
    let begin = u64::from(at) + 12 * number as u64;
    begin < u64::from(from) || u64::from(from) + u64::from(count) < begin + 12
}

/// The entry with this number.
#[tactic(auto, unfolding(c6x_elf_headers::specs::Entries::rela_at))]
fn rela_at(big: bool, table: &[u8], number: usize) -> Rela
    requires { 12 * number + 12 ≤ length table.now }
    ensures { result ≡ rela_at big table.now number }
{
    let at = 12 * number;
    Rela {
        offset: read_word(big, table, at),
        info: read_word(big, table, at + 4),
        addend: read_word(big, table, at + 8).cast_signed(),
    }
}
