ghost use Rattle.std.specs.Prelude.{◌≡◌, ◌≤◌, ◌<◌, ◌^◌, ◌++◌, false, All, IfOk, OnOk, if◌then◌else◌, length, map};
ghost use Rattle.c6x_elf.specs.Entries.{text_of};
ghost use Rattle.c6x_symbols.specs.Objects.{IsObject};
ghost use Rattle.c6x_link.specs.LinkEntries.{entry_on, file_link_entries, kind_of_entry, link_entries, link_entry, room_of, stands_in_text};
ghost use Rattle.c6x_link.specs.Rooms.{HasRoom};
ghost use Rattle.c6x_link.specs.TargetRows.{bound_targets};
ghost use Rattle.c6x_link.specs.Targets.{target_of};
ghost use Rattle.c6x_dsbt.specs.Needs.{is_packet, number_origin};
ghost use Rattle.c6x_dsbt.specs.Wanted.{wanted_at};

use crate::bound_names::bound_targets;
use crate::link_value::Link;
use crate::target::Target;
use crate::targets::target_of;
use c6x_dsbt::{Wanted, origin_in, wanted_symbols};
use c6x_elf::{File, section_bytes};
use c6x_layout::file_limits::TEXT_START;
use c6x_reloc::{Inputs, Origin, RelocKind, kind_of};
use c6x_symbols::{Entry, ObjectEntry, Reference, Region, file_entries};
use std::alloc::{AllocError, Global};

/// The relocation entries of all objects at link addresses, in object, section and entry order.
#[tactic(auto, unfolding(crate::specs::LinkEntries::link_entries), using(c6x_symbols::proofs::Numbered::numbered_alone))]
pub fn link_entries(alloc: Global, link: &Link) -> Result<Vec<Entry>, AllocError>
    requires room { HasRoom link.now }
    requires few { length link.now.objects ≤ 256 }
    requires form { All (IsObject false) link.now.objects }
    ensures { IfOk result (λ entries. entries.items ≡ link_entries link.now) }
{
    let bound = bound_targets(alloc, link)?;
    let mut made = Vec::new(alloc);
    for (number, object) in link.objects().iter().enumerate() {
        add_object(alloc, link, &bound, &mut made, number as u32, object)?;
    }
    Ok(made)
}

/// Adds the entries of an object.
#[tactic(auto, unfolding(crate::specs::LinkEntries::file_link_entries))]
fn add_object(
    alloc: Global,
    link: &Link,
    bound: &[Target],
    made: &mut Vec<Entry>,
    number: u32,
    object: &File,
) -> Result<(), AllocError>
    requires room { HasRoom link.now }
    requires bound { bound.now ≡ bound_targets link.now (length link.now.bindings) }
    requires all { All (IsObject false) link.now.objects }
    requires form { IsObject false object.now }
    ensures { OnOk result (made.new.items ≡ made.old.items ++ file_link_entries link.now (number, object.now)) }
{
    let wanted = wanted_symbols(alloc, link.bindings(), number, object)?;
    let targets = targets_of(alloc, link, bound, &wanted)?;
    let entries = file_entries(alloc, false, number, object)?;
    add_entries(link, &wanted, &targets, made, &entries)
}

/// What each symbol of an object is at link addresses, where it is told what they stand for.
#[tactic(auto, using(c6x_symbols::proofs::Listed::mapped_more))]
fn targets_of(
    alloc: Global,
    link: &Link,
    bound: &[Target],
    wanted: &[Wanted],
) -> Result<Vec<Target>, AllocError>
    requires room { HasRoom link.now }
    requires bound { bound.now ≡ bound_targets link.now (length link.now.bindings) }
    ensures { IfOk result (λ targets. targets.items ≡ map (target_of link.now) wanted.now) }
{
    let mut targets = Vec::new(alloc);
    for one in wanted {
        targets.push(target_in(link, bound, *one))?;
    }
    Ok(targets)
}

/// What a symbol is at link addresses, where those of all names are told.
#[tactic(auto, using(crate::proofs::Targeted::bound_there, crate::proofs::Targeted::bound_length, crate::proofs::Targeted::past_number))]
pub fn target_in(link: &Link, bound: &[Target], wanted: Wanted) -> Target
    requires room { HasRoom link.now }
    requires bound { bound.now ≡ bound_targets link.now (length link.now.bindings) }
    ensures { result ≡ target_of link.now wanted }
{
    match wanted {
        Wanted::Bound(number) => {
            if number as usize >= bound.len() {
                return target_of(link, wanted, 0);
            }
            bound[number as usize]
        }
        Wanted::Local { .. } => target_of(link, wanted, 0),
    }
}

/// Adds entries of an object whose symbols stand for these, and are these at link addresses.
#[tactic(auto, using(c6x_symbols::proofs::Listed::mapped_more))]
fn add_entries(
    link: &Link,
    wanted: &[Wanted],
    targets: &[Target],
    made: &mut Vec<Entry>,
    entries: &[ObjectEntry],
) -> Result<(), AllocError>
    requires room { HasRoom link.now }
    requires targets { targets.now ≡ map (target_of link.now) wanted.now }
    requires all { All (IsObject false) link.now.objects }
    ensures { OnOk result (made.new.items ≡ made.old.items ++ map (link_entry link.now wanted.now) entries.now) }
{
    for entry in entries {
        made.push(link_entry(link, wanted, targets, entry))?;
    }
    Ok(())
}

/// An entry at link addresses.
#[tactic(auto, unfolding(crate::specs::LinkEntries::link_entry))]
fn link_entry(link: &Link, wanted: &[Wanted], targets: &[Target], entry: &ObjectEntry) -> Entry
    requires room { HasRoom link.now }
    requires targets { targets.now ≡ map (target_of link.now) wanted.now }
    requires all { All (IsObject false) link.now.objects }
    ensures { result ≡ link_entry link.now wanted.now entry.now }
{
    entry_on(link, entry, target_at(link, wanted, targets, entry))
}

/// What the symbol of an entry is at link addresses.
#[tactic(auto, unfolding(c6x_dsbt::specs::Wanted::wanted_at), using(crate::proofs::Targeted::target_there, crate::proofs::Targeted::target_past))]
fn target_at(link: &Link, wanted: &[Wanted], targets: &[Target], entry: &ObjectEntry) -> Target
    requires room { HasRoom link.now }
    requires targets { targets.now ≡ map (target_of link.now) wanted.now }
    ensures { result ≡ target_of link.now (wanted_at wanted.now entry.now.object entry.now.symbol) }
{
    if entry.symbol as usize >= targets.len() {
        let own = Wanted::Local {
            object: entry.object,
            symbol: entry.symbol,
        };
        return target_of(link, own, 0);
    }
    targets[entry.symbol as usize]
}

/// An entry whose symbol is this at link addresses.
#[tactic(auto, unfolding(crate::specs::LinkEntries::entry_on, crate::specs::LinkEntries::section_at))]
fn entry_on(link: &Link, entry: &ObjectEntry, target: Target) -> Entry
    requires { All (IsObject false) link.now.objects }
    ensures { result ≡ entry_on link.now entry.now target }
{
    let section = link.section_address(entry.object, entry.section);
    let in_text = stands_in_text(link, entry);
    Entry {
        object: entry.object,
        at: section.saturating_sub(segment_start(link, in_text)),
        symbol: target.symbol,
        start: target.start,
        reference: Reference {
            kind: kind_of_entry(entry.kind),
            offset: entry.offset,
            room: room_of(link, entry),
            in_text,
            target: target.region,
            inputs: Inputs {
                s: symbol_value(entry.kind, target),
                a: entry.addend,
                p: section.wrapping_add(entry.offset),
                b: link.layout().table,
                g: target.word,
                index: link.plan().index,
            },
        },
    }
}

/// The address where the text or the data begins.
fn segment_start(link: &Link, in_text: bool) -> u32
    ensures { result ≡ (if in_text then TEXT_START else link.now.layout.table) }
{
    if in_text {
        TEXT_START
    } else {
        link.layout().table
    }
}

/// S: a kind that counts from its own place goes where a branch goes.
fn symbol_value(kind: Option<u8>, target: Target) -> u32
    ensures { result ≡ (if is_packet (number_origin kind) then target.reach else target.address) }
{
    match origin_in(kind) {
        Origin::Packet => target.reach,
        _ => target.address,
    }
}

/// The kind of an entry.
fn kind_of_entry(kind: Option<u8>) -> Option<RelocKind>
    ensures { result ≡ kind_of_entry kind }
{
    match kind_of(kind?) {
        Ok(kind) => Some(kind),
        Err(_) => None,
    }
}

/// Whether the section of an entry is in the text.
#[tactic(auto, unfolding(crate::specs::LinkEntries::stands_in_text))]
fn stands_in_text(link: &Link, entry: &ObjectEntry) -> bool
    ensures { result ≡ stands_in_text link.now entry.now }
{
    match link.section_region(entry.object, entry.section) {
        Region::Text => true,
        Region::Data | Region::Absolute | Region::Import => false,
    }
}

/// The bytes of the section of an entry.
#[tactic(auto, unfolding(crate::specs::LinkEntries::room_of), using(crate::proofs::Targeted::sections_there, crate::proofs::Targeted::sections_past))]
fn room_of(link: &Link, entry: &ObjectEntry) -> u32
    requires { All (IsObject false) link.now.objects }
    ensures { result ≡ room_of link.now entry.now }
{
    let objects = link.objects();
    if entry.object as usize >= objects.len() {
        return 0;
    }
    section_len(&objects[entry.object as usize], entry.section)
}

/// The length of a section of an object.
#[tactic(auto, using(c6x_symbols::proofs::Counts::text_small))]
fn section_len(object: &File, section: u32) -> u32
    requires { IsObject false object.now }
    ensures { result ≡ length (text_of object.now.sections section) }
{
    section_bytes(object.sections.as_slice(), section).len() as u32
}
