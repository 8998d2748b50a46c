ghost use Rattle.std.specs.Prelude.{◌≡◌, ◌^◌, ◌<◌, All, IfOk, OnOk, ◌++◌, vec_len};
ghost use Rattle.c6x_symbols.specs.LinkEntries.{NamesSymbol, dynamic_addend, dynamic_relas, is_dynamic, rela_of, relas_at};

use crate::entry::Entry;
use crate::reference::Reference;
use crate::region::Region;
use c6x_elf::Rela;
use c6x_reloc::{RelocKind, number_of};
use std::alloc::{AllocError, Global};

/// Whether the loader fills the entry's field: a word of data that names a symbol that moves.
pub fn is_dynamic(reference: &Reference) -> bool
    ensures { result ≡ is_dynamic reference.now }
{
    match reference.kind {
        Some(RelocKind::ABS32) => {
            !reference.in_text && !matches!(reference.target, Region::Absolute)
        }
        _ => false,
    }
}

/// The entries that are left to the loader, for the fields that it fills.
#[tactic(auto, unfolding(crate::specs::LinkEntries::dynamic_relas), using(crate::proofs::Walks::relas_more))]
pub fn dynamic_relas(alloc: Global, entries: &[Entry]) -> Result<Vec<Rela>, AllocError>
    requires { All NamesSymbol entries.now }
    ensures { IfOk result (λ relas. relas.items ≡ dynamic_relas entries.now) }
{
    let mut relas = Vec::new(alloc);
    for entry in entries {
        add_rela(&mut relas, entry)?;
    }
    Ok(relas)
}

/// Adds the entry for the loader, if it fills this field.
fn add_rela(relas: &mut Vec<Rela>, entry: &Entry) -> Result<(), AllocError>
    requires { NamesSymbol entry.now }
    ensures { OnOk result (relas.new.items ≡ relas.old.items ++ relas_at entry.now) }
{
    if is_dynamic(&entry.reference) {
        relas.push(rela_of(entry))?;
    }
    Ok(())
}

/// The entry for the loader.
#[tactic(auto, unfolding(crate::specs::LinkEntries::rela_of))]
fn rela_of(entry: &Entry) -> Rela
    requires { NamesSymbol entry.now }
    ensures { result ≡ rela_of entry.now }
{
    Rela::new(
        entry.reference.inputs.p,
        entry.symbol,
        number_of(RelocKind::ABS32),
        dynamic_addend(entry),
    )
}

/// The addend: how far S + A is from the symbol that the entry names.
#[tactic(auto, unfolding(crate::specs::LinkEntries::dynamic_addend))]
fn dynamic_addend(entry: &Entry) -> i32
    ensures { result ≡ dynamic_addend entry.now }
{
    let inputs = &entry.reference.inputs;
    inputs
        .s
        .wrapping_add(inputs.a.cast_unsigned())
        .wrapping_sub(entry.start)
        .cast_signed()
}
