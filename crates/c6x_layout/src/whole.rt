ghost use Rattle.std.specs.Prelude.{◌≡◌, ◌^◌, ◌≤◌, false, All, IfOk, length};
ghost use Rattle.c6x_dsbt.specs.Needs.{stubs_of, words_of};
ghost use Rattle.c6x_symbols.specs.Objects.{IsObject};
ghost use Rattle.c6x_symbols.specs.Parts.{parts_of};
ghost use Rattle.c6x_plan.specs.Limits.{IsLinkPlan};
ghost use Rattle.c6x_plan.specs.declared.limits.TheConstants.{MOST_OBJECTS};
ghost use Rattle.c6x_symbols.specs.Bindings.{bindings_of};
ghost use Rattle.c6x_symbols.specs.Rules.{Passes};
ghost use Rattle.c6x_layout.specs.Layouts.{laying, layout_of, layout_refusal, size_refusal};
ghost use Rattle.c6x_layout.specs.Shared.{IsHeldName};

use crate::aligning::check_alignments;
use crate::finishing::layout_by;
use crate::layout::Layout;
use crate::working::{check_sizes, sizes_of};
use c6x_dsbt::Tables;
use c6x_elf::File;
use c6x_plan::LinkPlan;
use c6x_symbols::{Bindings, LinkError, Part, parts};
use std::alloc::Global;

/// The addresses of a linked file, or the first broken rule of alignments (K3) and sizes (K4).
#[tactic(auto, unfolding(crate::specs::Layouts::layout_refusal))]
pub fn lay_out(
    alloc: Global,
    objects: &[File],
    bindings: &Bindings,
    tables: &Tables,
    plan: &LinkPlan,
) -> Result<Layout, LinkError>
    requires few { length objects.now ≤ MOST_OBJECTS }
    requires form { All (IsObject false) objects.now }
    requires plan { IsLinkPlan plan.now }
    requires bound { bindings.now ≡ bindings_of objects.now }
    requires words { tables.now.words ≡ words_of objects.now bindings.now }
    requires stubs { tables.now.stubs ≡ stubs_of objects.now bindings.now }
    ensures passes { Passes result (layout_refusal (laying objects.now bindings.now tables.now.words tables.now.stubs plan.now)) }
    ensures value { IfOk result (λ layout. layout ≡ layout_of (laying objects.now bindings.now tables.now.words tables.now.stubs plan.now)) }
{
    check_alignments(alloc, objects)?;
    sized_layout(alloc, objects, bindings, tables, plan)
}

/// The addresses of a linked file, or the broken rule of sizes (K4).
fn sized_layout(
    alloc: Global,
    objects: &[File],
    bindings: &Bindings,
    tables: &Tables,
    plan: &LinkPlan,
) -> Result<Layout, LinkError>
    requires few { length objects.now ≤ MOST_OBJECTS }
    requires form { All (IsObject false) objects.now }
    requires plan { IsLinkPlan plan.now }
    requires bound { bindings.now ≡ bindings_of objects.now }
    requires words { tables.now.words ≡ words_of objects.now bindings.now }
    requires stubs { tables.now.stubs ≡ stubs_of objects.now bindings.now }
    ensures passes { Passes result (size_refusal (laying objects.now bindings.now tables.now.words tables.now.stubs plan.now)) }
    ensures value { IfOk result (λ layout. layout ≡ layout_of (laying objects.now bindings.now tables.now.words tables.now.stubs plan.now)) }
{
    let parts = parts(alloc, objects)?;
    layout_of(alloc, objects, bindings, tables, plan, &parts)
}

/// The same with the sections at hand.
fn layout_of(
    alloc: Global,
    objects: &[File],
    bindings: &Bindings,
    tables: &Tables,
    plan: &LinkPlan,
    parts: &[Part],
) -> Result<Layout, LinkError>
    requires few { length objects.now ≤ MOST_OBJECTS }
    requires form { All (IsObject false) objects.now }
    requires held { All IsHeldName bindings.now }
    requires plan { IsLinkPlan plan.now }
    requires words { length tables.now.words ≤ 2 ^ 34 }
    requires stubs { length tables.now.stubs ≤ 2 ^ 34 }
    requires parts { parts.now ≡ parts_of objects.now }
    requires few_parts { length parts.now ≤ 2 ^ 20 }
    ensures passes { Passes result (size_refusal (laying objects.now bindings.now tables.now.words tables.now.stubs plan.now)) }
    ensures value { IfOk result (λ layout. layout ≡ layout_of (laying objects.now bindings.now tables.now.words tables.now.stubs plan.now)) }
{
    let sizes = sizes_of(alloc, objects, bindings, tables, plan, parts)?;
    let words = tables.words.len();
    let stubs = tables.stubs.len();
    check_sizes(alloc, &sizes, plan.table, words, stubs)?;
    let layout = layout_by(alloc, parts, bindings, &sizes)?;
    Ok(layout)
}
