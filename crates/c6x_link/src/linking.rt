ghost use Rattle.std.specs.Prelude.{◌≡◌, ◌≤◌, false, All, IfOk, None, length};
ghost use Rattle.c6x_elf.specs.Form.{IsTidy};
ghost use Rattle.c6x_dsbt.specs.Needs.{stubs_of, words_of};
ghost use Rattle.c6x_dsbt.specs.Plans.{tables_refusal};
ghost use Rattle.c6x_layout.specs.Alignments.{alignments_refusal};
ghost use Rattle.c6x_layout.specs.Layouts.{laying, layout_of, layout_refusal};
ghost use Rattle.c6x_link.specs.Linked.{file_refusal, laid_refusal, link_refusal, linked_of, parts_of};
ghost use Rattle.c6x_link.specs.Worked.{IsWorkedOut};
ghost use Rattle.c6x_layout.specs.File.{linked_file};
ghost use Rattle.c6x_symbols.specs.Objects.{IsObject};
ghost use Rattle.c6x_plan.specs.Limits.{IsLinkPlan};
ghost use Rattle.c6x_plan.specs.declared.limits.TheConstants.{MOST_OBJECTS};
ghost use Rattle.c6x_symbols.specs.Bindings.{bindings_of};
ghost use Rattle.c6x_link.specs.Working.{laying_with, worked_out};
ghost use Rattle.c6x_symbols.specs.Rules.{◌<|>◌, Passes};

use crate::entering::link_entries;
use crate::link_value::Link;
use crate::parting::parts_of;
use crate::setting::set_images;
use crate::starting::entry_of;
use c6x_dsbt::{Tables, plan_tables};
use c6x_elf::File;
use c6x_layout::{Layout, lay_out, linked_file};
use c6x_plan::LinkPlan;
use c6x_symbols::{Bindings, LinkError, LinkRule, check, resolve};
use std::alloc::Global;

/// The module that a link plan makes of objects (`specs/Linked.antt`), or the first broken rule of a link (K1 to K14) with
/// its object and its number.
#[tactic(auto, unfolding(crate::specs::Linked::link_refusal, crate::specs::Linked::linked_of, crate::specs::Working::laying_of, crate::specs::Working::working_of))]
pub fn link(alloc: Global, objects: &[File], plan: &LinkPlan) -> Result<File, LinkError>
    requires few { length objects.now ≤ MOST_OBJECTS }
    requires form { All (IsObject false) objects.now }
    requires plan { IsLinkPlan plan.now }
    ensures passes { Passes result (link_refusal objects.now plan.now) }
    ensures file { IfOk result (λ file. file ≡ linked_of objects.now plan.now) }
    ensures tidy { IfOk result (IsTidy false) }
{
    let bindings = resolve(alloc, objects)?;
    link_bound(alloc, objects, plan, &bindings)
}

/// The same with the names bound.
fn link_bound(
    alloc: Global,
    objects: &[File],
    plan: &LinkPlan,
    bindings: &Bindings,
) -> Result<File, LinkError>
    requires few { length objects.now ≤ MOST_OBJECTS }
    requires form { All (IsObject false) objects.now }
    requires plan { IsLinkPlan plan.now }
    requires bound { bindings.now ≡ bindings_of objects.now }
    ensures passes { Passes result (tables_refusal plan.now.library plan.now.index plan.now.table <|> laid_refusal (laying_with objects.now plan.now bindings.now)) }
    ensures file { IfOk result (λ file. file ≡ linked_file (parts_of (worked_out (laying_with objects.now plan.now bindings.now)))) }
    ensures tidy { IfOk result (IsTidy false) }
{
    let tables = plan_tables(alloc, objects, bindings, plan)?;
    link_planned(alloc, objects, plan, bindings, &tables)
}

/// The same with words and stubs.
#[tactic(auto, unfolding(crate::specs::Linked::laid_refusal))]
fn link_planned(
    alloc: Global,
    objects: &[File],
    plan: &LinkPlan,
    bindings: &Bindings,
    tables: &Tables,
) -> Result<File, LinkError>
    requires few { length objects.now ≤ MOST_OBJECTS }
    requires form { All (IsObject false) objects.now }
    requires plan { IsLinkPlan plan.now }
    requires bound { bindings.now ≡ bindings_of objects.now }
    requires words { tables.now.words ≡ words_of objects.now bindings.now }
    requires stubs { tables.now.stubs ≡ stubs_of objects.now bindings.now }
    ensures passes { Passes result (laid_refusal (laying objects.now bindings.now tables.now.words tables.now.stubs plan.now)) }
    ensures file { IfOk result (λ file. file ≡ linked_file (parts_of (worked_out (laying objects.now bindings.now tables.now.words tables.now.stubs plan.now)))) }
    ensures tidy { IfOk result (IsTidy false) }
{
    let layout = lay_out(alloc, objects, bindings, tables, plan)?;
    link_laid(alloc, objects, plan, bindings, tables, &layout)
}

/// The same with the addresses.
fn link_laid(
    alloc: Global,
    objects: &[File],
    plan: &LinkPlan,
    bindings: &Bindings,
    tables: &Tables,
    layout: &Layout,
) -> Result<File, LinkError>
    requires few { length objects.now ≤ MOST_OBJECTS }
    requires form { All (IsObject false) objects.now }
    requires bound { bindings.now ≡ bindings_of objects.now }
    requires laid { layout_refusal (laying objects.now bindings.now tables.now.words tables.now.stubs plan.now) ≡ None }
    requires layout { layout.now ≡ layout_of (laying objects.now bindings.now tables.now.words tables.now.stubs plan.now) }
    ensures passes { Passes result (file_refusal (worked_out (laying objects.now bindings.now tables.now.words tables.now.stubs plan.now))) }
    ensures file { IfOk result (λ file. file ≡ linked_file (parts_of (worked_out (laying objects.now bindings.now tables.now.words tables.now.stubs plan.now)))) }
    ensures tidy { IfOk result (IsTidy false) }
{
    let link = Link::of(alloc, objects, plan, bindings, tables, layout)?;
    make_file(alloc, &link)
}

/// The file of what is worked out, or the first rule that its entry or its relocation entries break.
#[tactic(auto, unfolding(crate::specs::Linked::file_refusal))]
fn make_file(alloc: Global, link: &Link) -> Result<File, LinkError>
    requires few { length link.now.objects ≤ MOST_OBJECTS }
    requires worked { IsWorkedOut link.now }
    requires bound { link.now.bindings ≡ bindings_of link.now.objects }
    requires aligned { alignments_refusal link.now.objects ≡ None }
    ensures passes { Passes result (file_refusal link.now) }
    ensures file { IfOk result (λ file. file ≡ linked_file (parts_of link.now)) }
    ensures tidy { IfOk result (IsTidy false) }
{
    let start = entry_of(link);
    check(alloc, start.is_some(), LinkRule::NoEntry, 0, 0)?;
    let entries = link_entries(alloc, link)?;
    let (code, content) = set_images(alloc, link, &entries)?;
    let start = start.unwrap_or(0);
    let parts = parts_of(alloc, link, &entries, start, code, content)?;
    Ok(linked_file(alloc, parts)?)
}
