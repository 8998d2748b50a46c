ghost use Rattle.std.specs.Prelude.{◌≡◌, ℕ, ◌+◌, ◌*◌, ◌++◌, OnOk, Some, vec_len};
ghost use Rattle.c6x_elf_headers.specs.Entries.{dynamic_of, rela_of, symbol_of};
ghost use Rattle.c6x_elf_headers.specs.EntryRows.{DynFits, RelaFits, SymbolFits, dynamic_row, rela_row, symbol_row};

use crate::dyn_entry::Dyn;
use crate::number_row::{put_halves, put_words};
use crate::rela_entry::Rela;
use crate::symbol_entry::Symbol;
use std::alloc::AllocError;

/// Puts the 16 bytes of a symbol; reading the table then gives the symbol again.
#[tactic(auto, using(crate::proofs::EntryRows::symbol_put, crate::proofs::EntryRows::symbol_behind))]
pub fn put_symbol(out: &mut Vec<u8>, big: bool, symbol: &Symbol) -> Result<(), AllocError>
    ensures row { OnOk result (out.new.items ≡ out.old.items ++ symbol_row big symbol.now) }
    ensures end { OnOk result (vec_len out.new ≡ vec_len out.old + 16) }
    ensures fit { OnOk result (SymbolFits symbol.now) }
    ensures back { OnOk result ((number : ℕ) → vec_len out.old ≡ 16 * number → symbol_of big out.new.items number ≡ Some symbol.now) }
{
    put_words(out, big, &[symbol.name, symbol.value, symbol.size])?;
    out.extend_from_slice(&[symbol.info, symbol.other])?;
    put_halves(out, big, &[symbol.section])
}

/// Puts the 12 bytes of a relocation entry; reading the table then gives the entry again.
#[tactic(auto, using(crate::proofs::EntryRows::rela_behind))]
pub fn put_rela(out: &mut Vec<u8>, big: bool, rela: &Rela) -> Result<(), AllocError>
    ensures row { OnOk result (out.new.items ≡ out.old.items ++ rela_row big rela.now) }
    ensures end { OnOk result (vec_len out.new ≡ vec_len out.old + 12) }
    ensures fit { OnOk result (RelaFits rela.now) }
    ensures back { OnOk result ((number : ℕ) → vec_len out.old ≡ 12 * number → rela_of big out.new.items number ≡ Some rela.now) }
{
    put_rela_words(out, big, rela)
}

/// Puts the three numbers of a relocation entry.
#[tactic(auto, unfolding(crate::specs::EntryRows::rela_row))]
fn put_rela_words(out: &mut Vec<u8>, big: bool, rela: &Rela) -> Result<(), AllocError>
    ensures row { OnOk result (out.new.items ≡ out.old.items ++ rela_row big rela.now) }
    ensures end { OnOk result (vec_len out.new ≡ vec_len out.old + 12) }
    ensures fit { OnOk result (RelaFits rela.now) }
{
    put_words(
        out,
        big,
        &[rela.offset, rela.info, rela.addend.cast_unsigned()],
    )
}

/// Puts the 8 bytes of a dynamic entry; reading the table then gives the entry again.
#[tactic(auto, unfolding(crate::specs::EntryRows::dynamic_row), using(crate::proofs::EntryRows::dynamic_behind))]
pub fn put_dynamic(out: &mut Vec<u8>, big: bool, entry: &Dyn) -> Result<(), AllocError>
    ensures row { OnOk result (out.new.items ≡ out.old.items ++ dynamic_row big entry.now) }
    ensures end { OnOk result (vec_len out.new ≡ vec_len out.old + 8) }
    ensures fit { OnOk result (DynFits entry.now) }
    ensures back { OnOk result ((number : ℕ) → vec_len out.old ≡ 8 * number → dynamic_of big out.new.items number ≡ Some entry.now) }
{
    put_words(out, big, &[entry.tag, entry.value])
}
