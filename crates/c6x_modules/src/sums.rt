ghost use Rattle.std.specs.Prelude.{◌≡◌, ◌+◌, ◌^◌, ◌<◌, ◌≤◌, length};
ghost use Rattle.std.specs.Option.{MatchOption, option_copied};
ghost use Rattle.c6x_base.specs.declared.limits.TheConstants.{MOST_NAMES_BYTES as most};
ghost use Rattle.c6x_module.specs.Refusals.{Passes};
ghost use Rattle.c6x_module.specs.Tables.{name_in, needed_length, sum_refusal, symbol_length, total};
ghost use Rattle.c6x_modules.specs.Seen.{tables_seen};

use crate::entry_rows::EntryRows;
use c6x_base::limits::MOST_NAMES_BYTES;
use c6x_elf::abi::{DT_NEEDED, DT_STRTAB};
use c6x_elf::{Dyn, Symbol, name_at};
use c6x_module::{ModuleError, ModuleRule, check};

/// A name of the strings, and the empty name where there is none.
#[tactic(auto, unfolding(c6x_module::specs::Tables::name_in))]
pub fn name_in(strings: &[u8], at: u32) -> &[u8]
    ensures { result.now ≡ name_in strings.now at }
{
    match name_at(strings, at) {
        Some(name) => name,
        None => &[],
    }
}

/// The lengths of the symbols' names together, as far as they pass no limit.
#[tactic(auto, using(crate::proofs::Walks::symbol_total_more))]
fn sum_symbols(strings: &[u8], symbols: &[Symbol]) -> Option<usize>
    ensures value { MatchOption result (most < total (symbol_length strings.now) symbols.now) (λ sum. sum ≡ total (symbol_length strings.now) symbols.now) }
    ensures small { MatchOption result (Unit {0}) (λ sum. sum ≤ most) }
{
    let mut sum = 0;
    for symbol in symbols {
        sum += name_in(strings, symbol.name).len();
        if sum > MOST_NAMES_BYTES as usize {
            return None;
        }
    }
    Some(sum)
}

/// The same with those of the needed names behind a sum.
#[tactic(auto, using(crate::proofs::Walks::needed_total_more))]
fn sum_needed(strings: &[u8], from: usize, entries: &[Dyn]) -> Option<usize>
    requires { from ≤ most }
    ensures value { MatchOption result (most < from + total (needed_length strings.now) entries.now) (λ sum. sum ≡ from + total (needed_length strings.now) entries.now) }
    ensures small { MatchOption result (Unit {0}) (λ sum. sum ≤ most) }
{
    let mut sum = from;
    for entry in entries {
        sum += needed_len(strings, entry);
        if sum > MOST_NAMES_BYTES as usize {
            return None;
        }
    }
    Some(sum)
}

/// The length of a needed name, and 0 for every other entry.
fn needed_len(strings: &[u8], entry: &Dyn) -> usize
    ensures value { result ≡ needed_length strings.now entry.now }
    ensures few { result < 2 ^ 63 }
{
    if entry.tag == DT_NEEDED {
        name_in(strings, entry.value).len()
    } else {
        0
    }
}

/// All names together are not too long.
#[tactic(auto, unfolding(c6x_module::specs::Tables::sum_refusal))]
pub fn check_sum(entries: &[Dyn], rows: &EntryRows, strings: &[u8]) -> Result<(), ModuleError>
    ensures { Passes result (sum_refusal entries.now (tables_seen rows.now strings.now)) }
{
    let holds = match sum_symbols(strings, &rows.symbols) {
        Some(sum) => sum_needed(strings, sum, entries).is_some(),
        None => false,
    };
    check(holds, ModuleRule::DynamicOutside, DT_STRTAB)
}
