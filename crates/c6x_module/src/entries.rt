ghost use Rattle.std.specs.Prelude.{◌≡◌, ◌+◌, ◌*◌, ◌≤◌, IfOk, is_some, length};
ghost use Rattle.std.specs.Option.{option_copied};
ghost use Rattle.c6x_elf.specs.TableEntries.{dynamic_at};
ghost use Rattle.c6x_module.specs.Entries.{dsbt_refusal, dynamic_in, entries_in, entries_of, tag_or, tag_value};
ghost use Rattle.c6x_module.specs.Refusals.{Answers, must, Passes};

use crate::checks::check;
use crate::module_error::ModuleError;
use crate::module_rule::ModuleRule;
use c6x_elf::abi::{DT_DSBT_BASE, DT_DSBT_INDEX, DT_DSBT_SIZE, DT_NULL, PT_DYNAMIC};
use c6x_elf::{Dyn, Segment};
use c6x_elf_headers::read_word;
use std::alloc::{AllocError, Global};

/// The dynamic entries of a file: those of its first segment of type DYNAMIC, in front of the first NULL. L1 comes exactly
/// where there is no such segment.
#[tactic(auto, unfolding(crate::specs::Entries::entries_in))]
pub fn find_entries(alloc: Global, big: bool, segments: &[Segment]) -> Result<Vec<Dyn>, ModuleError>
    ensures { Answers (λ entries. entries.items) result (entries_in big segments.now) }
{
    match dynamic_in(segments) {
        Some(table) => {
            let entries = read_entries(alloc, big, table)?;
            Ok(entries)
        }
        None => Err(ModuleError::Rule {
            rule: ModuleRule::NotDsbt,
            number: 0,
        }),
    }
}

/// The bytes of the first segment of type DYNAMIC.
#[tactic(auto, using(crate::proofs::EntryWalks::dynamic_more))]
fn dynamic_in(segments: &[Segment]) -> Option<&[u8]>
    ensures { option_copied result ≡ dynamic_in segments.now }
{
    for segment in segments {
        if segment.kind == PT_DYNAMIC {
            return Some(segment.bytes.as_bytes());
        }
    }
    None
}

/// The entries in front of the first NULL.
#[tactic(auto, unfolding(crate::specs::Entries::entries_of, c6x_elf_headers::specs::Entries::dynamic_entries))]
fn read_entries(alloc: Global, big: bool, table: &[u8]) -> Result<Vec<Dyn>, AllocError>
    ensures { IfOk result (λ entries. entries.items ≡ entries_of big table.now) }
{
    let mut entries = Vec::new(alloc);
    for number in 0..table.len() / 8 {
        let entry = entry_at(big, table, number);
        if entry.tag == DT_NULL {
            return Ok(entries);
        }
        entries.push(entry)?;
    }
    Ok(entries)
}

/// The entry with this number.
#[tactic(auto, unfolding(c6x_elf_headers::specs::Entries::dynamic_at))]
fn entry_at(big: bool, table: &[u8], number: usize) -> Dyn
    requires { 8 * number + 8 ≤ length table.now }
    ensures { result ≡ dynamic_at big table.now number }
{
    Dyn {
        tag: read_word(big, table, 8 * number),
        value: read_word(big, table, 8 * number + 4),
    }
}

/// The value of a tag at its first place.
#[tactic(auto, using(crate::proofs::EntryWalks::tag_more))]
pub fn tag_value(entries: &[Dyn], tag: u32) -> Option<u32>
    ensures { result ≡ tag_value tag entries.now }
{
    for entry in entries {
        if entry.tag == tag {
            return Some(entry.value);
        }
    }
    None
}

/// The same where a missing tag counts as a number.
#[tactic(auto, unfolding(crate::specs::Entries::tag_or))]
pub fn tag_or(entries: &[Dyn], tag: u32, other: u32) -> u32
    ensures { result ≡ tag_or other tag entries.now }
{
    match tag_value(entries, tag) {
        Some(value) => value,
        None => other,
    }
}

/// The tags of the data segment base table are there.
#[tactic(auto, unfolding(crate::specs::Entries::dsbt_refusal))]
pub fn check_dsbt(entries: &[Dyn]) -> Result<(), ModuleError>
    ensures { Passes result (dsbt_refusal entries.now) }
{
    need_tag(entries, DT_DSBT_BASE)?;
    need_tag(entries, DT_DSBT_SIZE)?;
    need_tag(entries, DT_DSBT_INDEX)
}

/// A tag of the data segment base table is there.
fn need_tag(entries: &[Dyn], tag: u32) -> Result<(), ModuleError>
    ensures { Passes result (must (is_some (tag_value tag entries.now)) ModuleRule.NotDsbt tag) }
{
    check(tag_value(entries, tag).is_some(), ModuleRule::NotDsbt, tag)
}
