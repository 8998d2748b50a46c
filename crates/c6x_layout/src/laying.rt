ghost use Rattle.std.specs.Prelude.{◌≡◌, ◌+◌, ◌-◌, ◌*◌, ◌^◌, ◌<◌, ◌≤◌, false, All, IfOk, OnOk, filter, length};
ghost use Rattle.c6x_layout.specs.FilePlaces.{text_size};
ghost use Rattle.c6x_layout.specs.declared.file_limits.TheConstants.{MOST_SEGMENT_BYTES, TEXT_START};
ghost use Rattle.c6x_symbols.specs.Objects.{IsObject};
ghost use Rattle.c6x_symbols.specs.Parts.{parts_of};
ghost use Rattle.c6x_plan.specs.Limits.{IsLinkPlan};
ghost use Rattle.c6x_plan.specs.declared.limits.TheConstants.{MOST_OBJECTS};
ghost use Rattle.c6x_symbols.specs.Rules.{Passes};
ghost use Rattle.c6x_layout.specs.Codes.{AreSmall, code_of};
ghost use Rattle.c6x_layout.specs.Dynamics.{filled_count, module_names, own_name, shared_numbers, strings_of_link};
ghost use Rattle.c6x_layout.specs.Layouts.{Laying, code_end, counts_of, laying, layout_of, layout_refusal, sections_end, size_refusal, stubs_at, table_at, words_at, words_end};
ghost use Rattle.c6x_layout.specs.Places.{in_text, places_end};
ghost use Rattle.c6x_layout.specs.RegionRows.{AreRegions};
ghost use Rattle.c6x_layout.specs.Shared.{IsHeldName};

use crate::code::Code;
use crate::counting::{filled_fields, filled_words};
use crate::counts::Counts;
use crate::file_limits::TEXT_START;
use crate::group::Group;
use crate::limits::{STUB_ALIGN, STUB_BYTES};
use crate::placing::group_end;
use crate::regions::regions_of;
use crate::strings::{module_bytes, shared_names};
use c6x_base::least_multiple;
use c6x_dsbt::Tables;
use c6x_elf::File;
use c6x_plan::LinkPlan;
use c6x_symbols::{Bindings, Part};
use std::alloc::{AllocError, Global};

/// The ends of a text with so many stubs.
#[tactic(auto, unfolding(crate::specs::Codes::code_of))]
pub fn code_of(parts: &[Part], stubs: usize) -> Code
    requires few { length parts.now ≤ 2 ^ 20 }
    requires stubs { stubs ≤ 2 ^ 40 }
    ensures value { result ≡ code_of parts.now stubs }
    ensures small { result.end ≤ 2 ^ 54 }
    ensures above { TEXT_START ≤ result.end }
{
    let sections = group_end(parts, Group::Text, u64::from(TEXT_START));
    if stubs == 0 {
        return Code {
            sections,
            stubs: 0,
            end: sections,
        };
    }
    let first = least_multiple(sections, STUB_ALIGN);
    Code {
        sections,
        stubs: first,
        end: first + u64::from(STUB_BYTES) * stubs as u64,
    }
}

/// How much the text holds behind its code.
#[tactic(auto, unfolding(crate::specs::Layouts::counts_of, crate::specs::Dynamics::filled_count, crate::specs::Shared::shared_of), using(crate::proofs::Joined::symbols_are, crate::proofs::Joined::strings_are))]
pub fn counts_of(
    alloc: Global,
    objects: &[File],
    bindings: &Bindings,
    tables: &Tables,
    plan: &LinkPlan,
    code: u64,
) -> Result<Counts, AllocError>
    requires few { length objects.now ≤ MOST_OBJECTS }
    requires form { All (IsObject false) objects.now }
    requires held { All IsHeldName bindings.now }
    requires plan { IsLinkPlan plan.now }
    requires words { length tables.now.words ≤ 2 ^ 34 }
    requires stubs { length tables.now.stubs ≤ 2 ^ 34 }
    requires code { code ≡ code_end (laying objects.now bindings.now tables.now.words tables.now.stubs plan.now) }
    requires above { TEXT_START ≤ code }
    requires small { code ≤ 2 ^ 54 }
    ensures value { IfOk result (λ counts. counts ≡ counts_of (laying objects.now bindings.now tables.now.words tables.now.stubs plan.now)) }
    ensures small { IfOk result (λ counts. AreSmall counts) }
{
    let exports = shared_names(bindings, true);
    let imports = shared_names(bindings, false);
    let regions = regions_of(alloc, objects)?;
    let words = filled_words(&regions, bindings, &tables.words);
    let fields = filled_fields(alloc, &regions, bindings, objects)?;
    Ok(Counts {
        code: code - u64::from(TEXT_START),
        symbols: 3 + exports.count + imports.count,
        strings: 1 + exports.bytes + imports.bytes + module_bytes(plan),
        relas: words + fields,
        jumps: tables.stubs.len() as u64,
        named: named_count(plan),
    })
}

/// How many names of modules there are: that of the module itself, and those that it needs.
#[tactic(auto, using(crate::proofs::Joined::named_are))]
fn named_count(plan: &LinkPlan) -> u64
    requires { IsLinkPlan plan.now }
    ensures value { result ≡ length (module_names plan.now) }
    ensures few { result ≤ 33 }
{
    plan.needed.as_slice().len() as u64 + own_count(plan)
}

/// 1 where the module has a name of its own, else 0.
fn own_count(plan: &LinkPlan) -> u64
    ensures value { result ≡ length (own_name plan.now.soname) }
    ensures few { result ≤ 1 }
{
    match &plan.soname {
        Some(_) => 1,
        None => 0,
    }
}
