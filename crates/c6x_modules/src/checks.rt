ghost use Rattle.std.specs.Prelude.{◌≡◌, length};
ghost use Rattle.c6x_spec.specs.Firsts.{first_along};
ghost use Rattle.c6x_module.specs.Refusals.{must, Passes};
ghost use Rattle.c6x_module.specs.Tables.{number_refusal, sizes_refusal, tables_refusal};
ghost use Rattle.c6x_modules.specs.Seen.{tables_seen};

use crate::entry_rows::EntryRows;
use crate::names::{check_needed_names, check_symbol_names, name_end};
use crate::sums::check_sum;
use c6x_elf::abi::{DT_JMPREL, DT_PLTRELSZ, DT_RELA, DT_RELAENT, DT_RELASZ, DT_SYMENT};
use c6x_elf::{Dyn, Rela};
use c6x_module::{ModuleError, ModuleRule, check, tag_or};

/// The parts of L11 behind the tables: sizes, names, numbers of symbols, and the sum of the names.
#[tactic(auto, unfolding(c6x_module::specs::Tables::tables_refusal))]
pub fn check_tables(entries: &[Dyn], rows: &EntryRows, strings: &[u8]) -> Result<(), ModuleError>
    ensures { Passes result (tables_refusal entries.now (tables_seen rows.now strings.now)) }
{
    check_sizes(entries)?;
    let end = name_end(strings);
    check_symbol_names(strings, end, &rows.symbols)?;
    check_needed_names(strings, end, entries)?;
    check_numbers(DT_RELA, rows.symbols.len(), &rows.relas)?;
    check_numbers(DT_JMPREL, rows.symbols.len(), &rows.jumps)?;
    check_sum(entries, rows, strings)
}

/// Sizes of entries, where they are told, and of the tables of relocation entries.
#[tactic(auto, unfolding(c6x_module::specs::Tables::sizes_refusal))]
fn check_sizes(entries: &[Dyn]) -> Result<(), ModuleError>
    ensures { Passes result (sizes_refusal entries.now) }
{
    check_dynamic(tag_or(entries, DT_SYMENT, 16) == 16, DT_SYMENT)?;
    check_dynamic(tag_or(entries, DT_RELAENT, 12) == 12, DT_RELAENT)?;
    check_dynamic(tag_or(entries, DT_RELASZ, 0).is_multiple_of(12), DT_RELASZ)?;
    check_dynamic(
        tag_or(entries, DT_PLTRELSZ, 0).is_multiple_of(12),
        DT_PLTRELSZ,
    )
}

/// L11 is broken, with this tag, where the test fails.
fn check_dynamic(holds: bool, tag: u32) -> Result<(), ModuleError>
    ensures { Passes result (must holds ModuleRule.DynamicOutside tag) }
{
    check(holds, ModuleRule::DynamicOutside, tag)
}

/// The entries of a table are on symbols that there are.
#[tactic(auto, using(crate::proofs::Walks::numbers_more))]
fn check_numbers(tag: u32, count: usize, relas: &[Rela]) -> Result<(), ModuleError>
    ensures { Passes result (first_along (number_refusal tag count) relas.now) }
{
    for rela in relas {
        check_number(tag, count, rela)?;
    }
    Ok(())
}

/// An entry is.
#[tactic(auto, unfolding(c6x_module::specs::Tables::number_refusal))]
fn check_number(tag: u32, count: usize, rela: &Rela) -> Result<(), ModuleError>
    ensures { Passes result (number_refusal tag count rela.now) }
{
    let number = rela.symbol();
    check_dynamic(number == 0 || (number as usize) < count, tag)
}
