ghost use Rattle.std.specs.Prelude.{◌≡◌, ◌+◌, ◌^◌, ◌≤◌, ◌<◌, ◌++◌, ◌∷◌, [], false, IfOk, OnOk, length};
ghost use Rattle.c6x_elf.specs.Abi.{DT_NULL};
ghost use Rattle.c6x_elf.specs.EntryRows.{dynamic_rows, rela_rows};
ghost use Rattle.c6x_layout.specs.FilePlaces.{AreInOrder, places_of};
ghost use Rattle.c6x_layout.specs.FileSizes.{AreFew};
ghost use Rattle.c6x_layout.specs.Tables.{entry, jump_entries, place_entries, rela_entries, table_entries};
ghost use Rattle.c6x_layout.specs.declared.file_limits.TheConstants.{MOST_SEGMENT_BYTES, TEXT_START};

use crate::counts::Counts;
use crate::file_limits::TEXT_START;
use crate::parts::Parts;
use crate::places::Places;
use c6x_elf::abi::{
    DT_DSBT_BASE, DT_DSBT_INDEX, DT_DSBT_SIZE, DT_HASH, DT_JMPREL, DT_NULL, DT_PLTREL, DT_PLTRELSZ,
    DT_RELA, DT_RELAENT, DT_RELASZ, DT_STRSZ, DT_STRTAB, DT_SYMENT, DT_SYMTAB,
};
use c6x_elf::{Dyn, Rela, put_dynamic, put_rela};
use std::alloc::{AllocError, Global};

/// The bytes of relocation entries.
pub fn rela_bytes(alloc: Global, relas: &[Rela]) -> Result<Vec<u8>, AllocError>
    ensures { IfOk result (λ bytes. bytes.items ≡ rela_rows false relas.now) }
{
    let mut bytes = Vec::new(alloc);
    for rela in relas {
        put_rela(&mut bytes, false, rela)?;
    }
    Ok(bytes)
}

/// Puts dynamic entries.
fn put_entries(out: &mut Vec<u8>, entries: &[Dyn]) -> Result<(), AllocError>
    ensures { OnOk result (out.new.items ≡ out.old.items ++ dynamic_rows false entries.now) }
{
    for entry in entries {
        put_dynamic(out, false, entry)?;
    }
    Ok(())
}

/// A dynamic entry.
fn entry(tag: u32, value: u32) -> Dyn
    ensures { result ≡ entry tag value }
{
    Dyn { tag, value }
}

/// The address of a place in the text.
pub fn address(place: u64) -> u32
    requires { place ≤ MOST_SEGMENT_BYTES }
    ensures { result ≡ TEXT_START + place }
{
    TEXT_START + place as u32
}

/// Puts the dynamic entries of the tables that every module has.
#[tactic(auto, unfolding(crate::specs::Tables::place_entries, crate::specs::FilePlaces::places_of))]
fn put_place_entries(out: &mut Vec<u8>, counts: &Counts, places: &Places) -> Result<(), AllocError>
    requires is { places.now ≡ places_of counts.now }
    requires order { AreInOrder places.now }
    requires small { places.now.end ≤ MOST_SEGMENT_BYTES }
    requires few { AreFew counts.now }
    ensures { OnOk result (out.new.items ≡ out.old.items ++ dynamic_rows false (place_entries counts.now)) }
{
    let entries = [
        entry(DT_HASH, address(places.hash)),
        entry(DT_STRTAB, address(places.strings)),
        entry(DT_SYMTAB, address(places.symbols)),
        entry(DT_STRSZ, counts.strings as u32),
        entry(DT_SYMENT, 16),
    ];
    put_entries(out, &entries)
}

/// Puts the dynamic entries of the fields that a loader fills, if there are any.
#[tactic(auto, unfolding(crate::specs::Tables::rela_entries, crate::specs::FilePlaces::places_of))]
fn put_rela_entries(out: &mut Vec<u8>, counts: &Counts, places: &Places) -> Result<(), AllocError>
    requires is { places.now ≡ places_of counts.now }
    requires order { AreInOrder places.now }
    requires small { places.now.end ≤ MOST_SEGMENT_BYTES }
    requires few { AreFew counts.now }
    ensures { OnOk result (out.new.items ≡ out.old.items ++ dynamic_rows false (rela_entries counts.now)) }
{
    if counts.relas == 0 {
        return Ok(());
    }
    let entries = [
        entry(DT_RELA, address(places.relas)),
        entry(DT_RELASZ, 12 * counts.relas as u32),
        entry(DT_RELAENT, 12),
    ];
    put_entries(out, &entries)
}

/// Puts the dynamic entries of the words of stubs, if there are any.
#[tactic(auto, unfolding(crate::specs::Tables::jump_entries, crate::specs::FilePlaces::places_of))]
fn put_jump_entries(out: &mut Vec<u8>, counts: &Counts, places: &Places) -> Result<(), AllocError>
    requires is { places.now ≡ places_of counts.now }
    requires order { AreInOrder places.now }
    requires small { places.now.end ≤ MOST_SEGMENT_BYTES }
    requires few { AreFew counts.now }
    ensures { OnOk result (out.new.items ≡ out.old.items ++ dynamic_rows false (jump_entries counts.now)) }
{
    if counts.jumps == 0 {
        return Ok(());
    }
    let entries = [
        entry(DT_JMPREL, address(places.jumps)),
        entry(DT_PLTRELSZ, 12 * counts.jumps as u32),
        entry(DT_PLTREL, DT_RELA),
    ];
    put_entries(out, &entries)
}

/// Puts the dynamic entries of the module's table, and the one that ends them.
#[tactic(auto, unfolding(crate::specs::Tables::table_entries))]
fn put_table_entries(out: &mut Vec<u8>, parts: &Parts) -> Result<(), AllocError>
    ensures { OnOk result (out.new.items ≡ out.old.items ++ dynamic_rows false (table_entries parts.now ++ entry DT_NULL 0 ∷ [])) }
{
    let entries = [
        entry(DT_DSBT_BASE, parts.table),
        entry(DT_DSBT_SIZE, parts.slots),
        entry(DT_DSBT_INDEX, parts.index),
        entry(DT_NULL, 0),
    ];
    put_entries(out, &entries)
}

/// Puts the dynamic entries behind those that name modules.
#[tactic(auto, using(crate::proofs::FileRows::four_groups))]
pub fn put_other_entries(
    out: &mut Vec<u8>,
    parts: &Parts,
    counts: &Counts,
    places: &Places,
) -> Result<(), AllocError>
    requires is { places.now ≡ places_of counts.now }
    requires order { AreInOrder places.now }
    requires small { places.now.end ≤ MOST_SEGMENT_BYTES }
    requires few { AreFew counts.now }
    ensures { OnOk result (out.new.items ≡ out.old.items ++ dynamic_rows false (place_entries counts.now ++ (rela_entries counts.now ++ (jump_entries counts.now ++ (table_entries parts.now ++ entry DT_NULL 0 ∷ []))))) }
{
    put_place_entries(out, counts, places)?;
    put_rela_entries(out, counts, places)?;
    put_jump_entries(out, counts, places)?;
    put_table_entries(out, parts)
}
