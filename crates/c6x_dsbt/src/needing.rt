ghost use Rattle.std.specs.Prelude.{◌≡◌, ◌≤◌, false, All, IfOk, OnOk, length, map};
ghost use Rattle.std.specs.List.{enumerate_from, flat_map, fold};
ghost use Rattle.c6x_symbols.specs.Objects.{IsObject};
ghost use Rattle.c6x_plan.specs.declared.limits.TheConstants.{MOST_OBJECTS};
ghost use Rattle.c6x_dsbt.specs.Growth.{with_stub, with_word};
ghost use Rattle.c6x_dsbt.specs.Needs.{file_stubs, file_words, import_of, is_imported_at, stub_need, word_need};

use crate::origins::origin_in;
use crate::stubs::Stubs;
use crate::tables::Tables;
use crate::wanted::Wanted;
use crate::wanting::{wanted_at, wanted_symbols};
use c6x_elf::File;
use c6x_reloc::Origin;
use c6x_symbols::{Bindings, ObjectEntry, file_entries};
use std::alloc::{AllocError, Global};

/// Adds the words and stubs that the entries of all objects need.
#[tactic(auto, using(crate::proofs::Folded::numbered_fold_more))]
pub fn add_objects(
    alloc: Global,
    tables: &mut Tables,
    bindings: &Bindings,
    objects: &[File],
) -> Result<(), AllocError>
    requires few { length objects.now ≤ MOST_OBJECTS }
    requires form { All (IsObject false) objects.now }
    ensures words { OnOk result (tables.new.words ≡ fold with_word tables.old.words (flat_map (file_words bindings.now) (enumerate_from 0 objects.now))) }
    ensures stubs { OnOk result (tables.new.stubs ≡ fold with_stub tables.old.stubs (flat_map (file_stubs bindings.now) (enumerate_from 0 objects.now))) }
    ensures slots { OnOk result (tables.new.slots ≡ tables.old.slots) }
{
    for (number, object) in objects.iter().enumerate() {
        add_object(alloc, tables, bindings, number as u32, object)?;
    }
    Ok(())
}

/// Adds those of an object.
#[tactic(auto, unfolding(crate::specs::Needs::file_words, crate::specs::Needs::file_stubs))]
fn add_object(
    alloc: Global,
    tables: &mut Tables,
    bindings: &Bindings,
    number: u32,
    object: &File,
) -> Result<(), AllocError>
    requires { IsObject false object.now }
    ensures words { OnOk result (tables.new.words ≡ fold with_word tables.old.words (file_words bindings.now (number, object.now))) }
    ensures stubs { OnOk result (tables.new.stubs ≡ fold with_stub tables.old.stubs (file_stubs bindings.now (number, object.now))) }
    ensures slots { OnOk result (tables.new.slots ≡ tables.old.slots) }
{
    let wanted = wanted_symbols(alloc, bindings, number, object)?;
    let entries = file_entries(alloc, false, number, object)?;
    add_entries(tables, bindings, &wanted, &entries)
}

/// Adds those of entries of an object whose symbols stand for these.
#[tactic(auto, using(crate::proofs::Folded::fold_more))]
fn add_entries(
    tables: &mut Tables,
    bindings: &Bindings,
    wanted: &[Wanted],
    entries: &[ObjectEntry],
) -> Result<(), AllocError>
    ensures words { OnOk result (tables.new.words ≡ fold with_word tables.old.words (flat_map (word_need wanted.now) entries.now)) }
    ensures stubs { OnOk result (tables.new.stubs ≡ fold with_stub tables.old.stubs (flat_map (stub_need bindings.now wanted.now) entries.now)) }
    ensures slots { OnOk result (tables.new.slots ≡ tables.old.slots) }
{
    for entry in entries {
        add_entry(tables, bindings, wanted, entry)?;
    }
    Ok(())
}

/// Adds the word or the stub that an entry needs.
#[tactic(auto, unfolding(crate::specs::Needs::word_need, crate::specs::Needs::stub_need))]
fn add_entry(
    tables: &mut Tables,
    bindings: &Bindings,
    wanted: &[Wanted],
    entry: &ObjectEntry,
) -> Result<(), AllocError>
    ensures words { OnOk result (tables.new.words ≡ fold with_word tables.old.words (word_need wanted.now entry.now)) }
    ensures stubs { OnOk result (tables.new.stubs ≡ fold with_stub tables.old.stubs (stub_need bindings.now wanted.now entry.now)) }
    ensures slots { OnOk result (tables.new.slots ≡ tables.old.slots) }
{
    let named = wanted_at(wanted, entry.object, entry.symbol);
    match origin_in(entry.kind) {
        Origin::Got => tables.words.add(named),
        Origin::Packet => add_import(&mut tables.stubs, bindings, named),
        _ => Ok(()),
    }
}

/// Adds the stub of an import.
fn add_import(stubs: &mut Stubs, bindings: &Bindings, named: Wanted) -> Result<(), AllocError>
    ensures { OnOk result (stubs.new ≡ fold with_stub stubs.old (import_of bindings.now named)) }
{
    match named {
        Wanted::Local { .. } => Ok(()),
        Wanted::Bound(number) => {
            if is_imported_at(bindings, number) {
                stubs.add(number)?;
            }
            Ok(())
        }
    }
}

/// Whether the name with this number is there, and is an import.
#[tactic(auto, unfolding(crate::specs::Needs::is_imported_at))]
fn is_imported_at(bindings: &Bindings, number: u32) -> bool
    ensures { result ≡ is_imported_at bindings.now number }
{
    number < bindings.len() && bindings.is_imported(number)
}
