ghost use Rattle.std.specs.Prelude.{◌≡◌};
ghost use Rattle.c6x_spec.specs.Firsts.{first_along};
ghost use Rattle.c6x_elf.specs.Entries.{name_end};
ghost use Rattle.c6x_module.specs.Refusals.{Passes};
ghost use Rattle.c6x_module.specs.Tables.{needed_refusal, symbol_refusal};

use c6x_elf::abi::{DT_NEEDED, DT_SYMTAB};
use c6x_elf::{Dyn, Symbol};
use c6x_module::{ModuleError, ModuleRule, check};

/// The place behind the last zero byte; 0 where there is none. A name ends exactly where it begins in front of it.
#[tactic(auto, using(c6x_elf::proofs::EntryWalks::end_zero, c6x_elf::proofs::EntryWalks::end_other))]
pub fn name_end(text: &[u8]) -> usize
    ensures { result ≡ name_end text.now }
{
    let mut end = 0;
    for (i, byte) in text.iter().enumerate() {
        if *byte == 0 {
            end = i + 1;
        }
    }
    end
}

/// Every symbol has a name in the strings.
#[tactic(auto, using(crate::proofs::Walks::symbols_more))]
pub fn check_symbol_names(strings: &[u8], end: usize, symbols: &[Symbol]) -> Result<(), ModuleError>
    requires { end ≡ name_end strings.now }
    ensures { Passes result (first_along (symbol_refusal strings.now) symbols.now) }
{
    for symbol in symbols {
        check_symbol_name(strings, end, symbol)?;
    }
    Ok(())
}

/// A symbol has one.
#[tactic(auto, unfolding(c6x_module::specs::Tables::symbol_refusal), using(c6x_elf::proofs::EntryWalks::has_end_before))]
fn check_symbol_name(strings: &[u8], end: usize, symbol: &Symbol) -> Result<(), ModuleError>
    requires { end ≡ name_end strings.now }
    ensures { Passes result (symbol_refusal strings.now symbol.now) }
{
    check(
        (symbol.name as usize) < end,
        ModuleRule::DynamicOutside,
        DT_SYMTAB,
    )
}

/// Every NEEDED entry has a name in the strings.
#[tactic(auto, using(crate::proofs::Walks::needed_more))]
pub fn check_needed_names(strings: &[u8], end: usize, entries: &[Dyn]) -> Result<(), ModuleError>
    requires { end ≡ name_end strings.now }
    ensures { Passes result (first_along (needed_refusal strings.now) entries.now) }
{
    for entry in entries {
        check_needed_name(strings, end, entry)?;
    }
    Ok(())
}

/// An entry has one if it is NEEDED.
#[tactic(auto, unfolding(c6x_module::specs::Tables::needed_refusal), using(c6x_elf::proofs::EntryWalks::has_end_before))]
fn check_needed_name(strings: &[u8], end: usize, entry: &Dyn) -> Result<(), ModuleError>
    requires { end ≡ name_end strings.now }
    ensures { Passes result (needed_refusal strings.now entry.now) }
{
    let named = entry.tag != DT_NEEDED || (entry.value as usize) < end;
    check(named, ModuleRule::DynamicOutside, DT_NEEDED)
}
