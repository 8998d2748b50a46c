ghost use Rattle.std.specs.Prelude.{◌≡◌, ◌+◌, ◌-◌, ◌*◌, ◌^◌, ◌≤◌, false, All, IfOk, OnOk, length};
ghost use Rattle.c6x_layout.specs.FilePlaces.{places_of, text_size};
ghost use Rattle.c6x_layout.specs.declared.file_limits.TheConstants.{MOST_SEGMENT_BYTES, TEXT_START};
ghost use Rattle.c6x_symbols.specs.Objects.{IsObject};
ghost use Rattle.c6x_symbols.specs.Parts.{parts_of};
ghost use Rattle.c6x_plan.specs.Limits.{IsLinkPlan};
ghost use Rattle.c6x_plan.specs.declared.limits.TheConstants.{MOST_OBJECTS};
ghost use Rattle.c6x_symbols.specs.Rules.{Passes};
ghost use Rattle.c6x_layout.specs.Codes.{AreSmall};
ghost use Rattle.c6x_layout.specs.Layouts.{counts_of, laying, table_at, text_end, words_at, words_end};
ghost use Rattle.c6x_spec.specs.Rounded.{rounded};
ghost use Rattle.c6x_layout.specs.declared.limits.TheConstants.{PAGE};
ghost use Rattle.c6x_layout.specs.Shared.{IsHeldName};
ghost use Rattle.c6x_layout.specs.Sizes.{sizes_of, sizes_refusal};

use crate::counts::Counts;
use crate::file_limits::TEXT_START;
use crate::laying::{code_of, counts_of};
use crate::limits::PAGE;
use crate::places::{Places, places_of};
use crate::sizes::Sizes;
use crate::sizing::{check_size, check_words, data_ends};
use c6x_base::least_multiple;
use c6x_dsbt::Tables;
use c6x_elf::File;
use c6x_plan::LinkPlan;
use c6x_symbols::{Bindings, LinkError, Part};
use std::alloc::{AllocError, Global};

/// The numbers of a layout.
#[tactic(auto, unfolding(crate::specs::Sizes::sizes_of), using(crate::proofs::Sized::code_of_is, crate::proofs::Sized::ends_of_is))]
pub fn sizes_of(
    alloc: Global,
    objects: &[File],
    bindings: &Bindings,
    tables: &Tables,
    plan: &LinkPlan,
    parts: &[Part],
) -> Result<Sizes, AllocError>
    requires few { length objects.now ≤ MOST_OBJECTS }
    requires form { All (IsObject false) objects.now }
    requires held { All IsHeldName bindings.now }
    requires plan { IsLinkPlan plan.now }
    requires words { length tables.now.words ≤ 2 ^ 34 }
    requires stubs { length tables.now.stubs ≤ 2 ^ 34 }
    requires parts { parts.now ≡ parts_of objects.now }
    requires few_parts { length parts.now ≤ 2 ^ 20 }
    ensures { IfOk result (λ sizes. sizes ≡ sizes_of (laying objects.now bindings.now tables.now.words tables.now.stubs plan.now)) }
{
    let stubs = tables.stubs.len();
    let code = code_of(parts, stubs);
    let counts = counts_of(alloc, objects, bindings, tables, plan, code.end)?;
    let text = text_of(&counts);
    let table = table_of(text.end);
    let words = table + 4 * u64::from(plan.table);
    let start = words + 4 * (tables.words.len() + stubs) as u64;
    Ok(Sizes {
        code,
        text,
        table,
        words,
        start,
        ends: data_ends(parts, bindings, start),
    })
}

/// Where the tables of the text stand.
#[tactic(auto, unfolding(crate::specs::FilePlaces::places_of), using(crate::proofs::Sized::text_small))]
fn text_of(counts: &Counts) -> Places
    requires { AreSmall counts.now }
    ensures value { result ≡ places_of counts.now }
    ensures small { result.end ≤ 2 ^ 56 }
{
    places_of(counts)
}

/// Where the data begins behind a text of so many bytes.
fn table_of(text: u64) -> u64
    requires { text ≤ 2 ^ 56 }
    ensures value { result ≡ rounded (TEXT_START + text + PAGE) PAGE }
    ensures small { result ≤ text + 2 ^ 17 }
{
    least_multiple(u64::from(TEXT_START) + text + u64::from(PAGE), PAGE)
}

/// Checks the sizes of the text and of the data, and the greatest number of a stub's word (K4).
#[tactic(auto, unfolding(crate::specs::Sizes::sizes_refusal))]
pub fn check_sizes(
    alloc: Global,
    sizes: &Sizes,
    table: u32,
    words: usize,
    stubs: usize,
) -> Result<(), LinkError>
    requires order { sizes.now.table ≤ sizes.now.ends.far }
    requires words { words ≤ 2 ^ 34 }
    requires stubs { stubs ≤ 2 ^ 34 }
    ensures passes { Passes result (sizes_refusal sizes.now table words stubs) }
    ensures text { OnOk result (sizes.now.text.end ≤ MOST_SEGMENT_BYTES) }
    ensures range { OnOk result (sizes.now.ends.far - sizes.now.table ≤ MOST_SEGMENT_BYTES) }
{
    check_size(alloc, sizes.text.end)?;
    check_size(alloc, sizes.ends.far - sizes.table)?;
    check_words(alloc, table, words, stubs)
}
