ghost use Rattle.std.specs.Prelude.{◌≡◌, ◌<◌, ◌^◌, length, Some};
ghost use Rattle.c6x_asm_object.specs.Named.{section_name};
ghost use Rattle.c6x_asm_object.specs.Sums.{clipped, empty_summary, is_heavy, is_past, joined, joined_all, joined_stretch, names_of_section, rows_of_section, section_summary, section_tables, summed};

use crate::asm_section::AsmSection;
use crate::placing::{both, section_stretch};
use crate::stretch::Stretch;
use crate::summary::Summary;
use c6x_asm_lines::bytes_at;

// The most bytes of a section.
const MOST_SECTION: u128 = 1_048_576;

/// Whether so many bytes are more than a section may have.
#[tactic(auto, unfolding(crate::specs::Sums::is_past))]
pub fn is_past(size: u128) -> bool
    ensures { result ≡ is_past size }
{
    size > MOST_SECTION
}

fn is_heavy(section: &AsmSection) -> bool
    ensures { result ≡ is_heavy section.now }
{
    is_past(u128::from(section.size))
        || is_past(section.bytes.as_slice().len() as u128)
        || is_past(12 * section.entries.as_slice().len() as u128)
}

fn rows_of_section(section: &AsmSection) -> u64
    ensures { result ≡ clipped (rows_of_section section.now) }
{
    (section.entries.as_slice().len() as u64).saturating_mul(12)
}

fn section_tables(section: &AsmSection) -> u64
    ensures { result ≡ section_tables section.now }
{
    u64::from(section.entries.as_slice().len() >= 1)
}

fn names_of_section(text: &[u8], section: &AsmSection) -> u64
    ensures { result ≡ clipped (names_of_section text.now section.now) }
{
    let len = bytes_at(text, section.at, section.len).len() as u64;
    if section.entries.as_slice().len() >= 1 {
        (len + 1).saturating_add(len + 6)
    } else {
        len + 1
    }
}

#[tactic(auto, unfolding(crate::specs::Sums::section_summary))]
fn section_summary(text: &[u8], section: &AsmSection) -> Summary
    ensures { result ≡ section_summary text.now section.now }
{
    Summary {
        stretch: section_stretch(section),
        heavy: is_heavy(section),
        tables: section_tables(section),
        rows: rows_of_section(section),
        names: names_of_section(text, section),
    }
}

// The summary of no section.
fn empty_summary() -> Summary
    ensures { result ≡ empty_summary }
{
    Summary {
        stretch: Some(Stretch {
            ahead: 0,
            align: 1,
            behind: 0,
        }),
        heavy: false,
        tables: 0,
        rows: 0,
        names: 0,
    }
}

fn joined_stretch(a: Option<Stretch>, b: Option<Stretch>) -> Option<Stretch>
    ensures { result ≡ joined_stretch a b }
{
    both(a?, b?)
}

#[tactic(auto, unfolding(crate::specs::Sums::joined))]
fn joined(a: Summary, b: Summary) -> Summary
    ensures { result ≡ joined a b }
{
    Summary {
        stretch: joined_stretch(a.stretch, b.stretch),
        heavy: a.heavy || b.heavy,
        tables: a.tables.saturating_add(b.tables),
        rows: a.rows.saturating_add(b.rows),
        names: a.names.saturating_add(b.names),
    }
}

/// The summary of sections.
#[tactic(auto, using(crate::proofs::Folds::summed_more))]
pub fn summed(text: &[u8], sections: &[AsmSection]) -> Summary
    ensures { result ≡ summed text.now empty_summary sections.now }
{
    let mut sum = empty_summary();
    for section in sections {
        sum = joined(sum, section_summary(text, section));
    }
    sum
}

/// The summary of all sections of blocks.
#[tactic(auto, using(crate::proofs::Folds::joined_more))]
pub fn joined_all(blocks: &[Summary]) -> Summary
    ensures { result ≡ joined_all empty_summary blocks.now }
{
    let mut sum = empty_summary();
    for block in blocks {
        sum = joined(sum, *block);
    }
    sum
}
