ghost use Rattle.std.specs.Prelude.{◌≡◌, ◌+◌, ◌*◌, ◌^◌, ◌<◌, ◌≤◌, false, All, Bool, IfOk, List, filter, length, map, if◌then◌else◌, slice_index_or};
ghost use Rattle.std.specs.List.{enumerate_from, flat_map};
ghost use Rattle.c6x_elf.specs.declared.file.File.{File as FileOf};
ghost use Rattle.c6x_symbols.specs.Objects.{IsObject};
ghost use Rattle.c6x_plan.specs.declared.limits.TheConstants.{MOST_OBJECTS};
ghost use Rattle.c6x_dsbt.specs.Wanted.{wanted_at};
ghost use Rattle.c6x_dsbt.specs.declared.wanted.Wanted.TheVariants.{Bound};
ghost use Rattle.c6x_layout.specs.Dynamics.{file_filled, is_filled_entry, is_filled_word, is_word_kind};
ghost use Rattle.c6x_layout.specs.RegionRows.{AreRegions};
ghost use Rattle.c6x_layout.specs.Regions.{is_data, moves};

use crate::regions::Regions;
use c6x_dsbt::{Wanted, Words, wanted_at, wanted_symbols};
use c6x_elf::File;
use c6x_reloc::{RelocKind, number_of};
use c6x_symbols::{Bindings, ObjectEntry, Region, file_entries};
use std::alloc::{AllocError, Global};

/// How many of the value words the loader fills.
pub fn filled_words(regions: &Regions, bindings: &Bindings, words: &Words) -> u64
    ensures count { (objects : List FileOf) → AreRegions objects regions.now → result ≡ length (filter (is_filled_word objects bindings.now) words.now) }
    ensures few { result ≤ length words.now }
{
    let mut count = 0;
    for place in 0..words.len() {
        count += filled_word(regions, bindings, words, place);
    }
    count
}

/// 1 for a value word that the loader fills, else 0.
#[tactic(auto, unfolding(crate::specs::Dynamics::is_filled_word), using(std::proofs::lemmas::Option::get_or_from_slice_get))]
fn filled_word(regions: &Regions, bindings: &Bindings, words: &Words, place: usize) -> u64
    requires { place < length words.now }
    ensures one { (objects : List FileOf) → AreRegions objects regions.now → result ≡ (if is_filled_word objects bindings.now (slice_index_or words.now place (Bound 0)) then 1 else 0) }
    ensures few { result ≤ 1 }
{
    match words.get(place) {
        Some(wanted) => u64::from(moves(regions.wanted(bindings, wanted))),
        None => 0,
    }
}

/// Whether what lies here moves when the module is loaded.
fn moves(region: Region) -> bool
    ensures { result ≡ moves region }
{
    !matches!(region, Region::Absolute)
}

/// How many fields of objects the loader fills.
pub fn filled_fields(
    alloc: Global,
    regions: &Regions,
    bindings: &Bindings,
    objects: &[File],
) -> Result<u64, AllocError>
    requires few { length objects.now ≤ MOST_OBJECTS }
    requires form { All (IsObject false) objects.now }
    requires regions { AreRegions objects.now regions.now }
    ensures count { IfOk result (λ count. count ≡ length (flat_map (file_filled objects.now bindings.now) (enumerate_from 0 objects.now))) }
    ensures few { IfOk result (λ count. count ≤ 2 ^ 33) }
{
    let mut count = 0;
    for (number, object) in objects.iter().enumerate() {
        count += filled_in(alloc, regions, bindings, number as u32, object)?;
    }
    Ok(count)
}

/// How many fields of an object the loader fills.
#[tactic(auto, unfolding(crate::specs::Dynamics::file_filled), using(c6x_symbols::proofs::Few::file_entries_few))]
fn filled_in(
    alloc: Global,
    regions: &Regions,
    bindings: &Bindings,
    number: u32,
    object: &File,
) -> Result<u64, AllocError>
    requires { IsObject false object.now }
    ensures count { IfOk result (λ count. (objects : List FileOf) → AreRegions objects regions.now → count ≡ length (file_filled objects bindings.now (number, object.now))) }
    ensures few { IfOk result (λ count. count ≤ 2 ^ 25) }
{
    let wanted = wanted_symbols(alloc, bindings, number, object)?;
    let entries = file_entries(alloc, false, number, object)?;
    Ok(filled_entries(regions, bindings, &wanted, &entries))
}

/// How many of the entries of an object the loader fills, whose symbols stand for these.
fn filled_entries(
    regions: &Regions,
    bindings: &Bindings,
    wanted: &[Wanted],
    entries: &[ObjectEntry],
) -> u64
    ensures count { (objects : List FileOf) → AreRegions objects regions.now → result ≡ length (filter (is_filled_entry objects bindings.now wanted.now) entries.now) }
    ensures few { result ≤ length entries.now }
{
    let mut count = 0;
    for entry in entries {
        count += u64::from(is_filled_entry(regions, bindings, wanted, entry));
    }
    count
}

/// Whether the loader fills the field of an entry.
#[tactic(auto, unfolding(crate::specs::Dynamics::is_filled_entry))]
fn is_filled_entry(
    regions: &Regions,
    bindings: &Bindings,
    wanted: &[Wanted],
    entry: &ObjectEntry,
) -> bool
    ensures { (objects : List FileOf) → AreRegions objects regions.now → result ≡ is_filled_entry objects bindings.now wanted.now entry.now }
{
    let named = wanted_at(wanted, entry.object, entry.symbol);
    is_word_kind(entry.kind)
        && matches!(regions.section(entry.object, entry.section), Region::Data)
        && moves(regions.wanted(bindings, named))
}

/// Whether this is the number of the kind of a word of data.
fn is_word_kind(number: Option<u8>) -> bool
    ensures { result ≡ is_word_kind number }
{
    match number {
        Some(number) => number == number_of(RelocKind::ABS32),
        None => false,
    }
}
