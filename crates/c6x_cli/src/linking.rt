ghost use Rattle.std.specs.Prelude.{◌≡◌, ◌≤◌, false, length, slice_index_or, All, IfOk};
ghost use Rattle.c6x_elf.specs.Form.{IsTidy};
ghost use Rattle.c6x_symbols.specs.Objects.{IsObject};
ghost use Rattle.c6x_plan.specs.Limits.{IsLinkPlan};
ghost use Rattle.c6x_plan.specs.declared.limits.TheConstants.{MOST_OBJECTS};
ghost use Rattle.c6x_link.specs.Linked.{linked};
ghost use Rattle.c6x_cli.specs.Linking.{link_words, linking_steps, or_unlinked};
ghost use Rattle.c6x_cli.specs.Refusing.{RefusesLink};
ghost use Rattle.c6x_cli_steps.specs.Steps.{Decides, Prepares};

use crate::object::written_object;
use crate::objects::fetch_objects;
use c6x_base::{Bytes, Line, Name};
use c6x_cli_steps::{PrepareError, fetch_link_plan, label, refuse};
use c6x_elf::File;
use c6x_link::link;
use c6x_plan::LinkPlan;
use c6x_ports::Shelf;
use c6x_symbols::{LinkError, LinkRule};
use std::alloc::Global;

/// The bytes of the module that the link plan with this name asks for.
pub fn prepare_module<S: Shelf>(
    alloc: Global,
    shelf: &mut S,
    name: &Name,
) -> Result<Bytes, PrepareError>
    ensures { Prepares (λ bytes. bytes) (λ told. linking_steps told name.now) (S.seen shelf.old) (S.seen shelf.new) result }
{
    let plan = fetch_link_plan(alloc, shelf, name)?;
    let objects = fetch_objects(alloc, shelf, plan.objects.as_slice())?;
    let module = module_of(alloc, name, &plan, &objects)?;
    written_object(alloc, &module)
}

/// The module of these objects, or the first rule that they break.
#[tactic(auto, unfolding(c6x_link::specs::Linked::linked))]
pub fn module_of(
    alloc: Global,
    name: &Name,
    plan: &LinkPlan,
    objects: &[File],
) -> Result<File, PrepareError>
    requires few { length objects.now ≤ MOST_OBJECTS }
    requires form { All (IsObject false) objects.now }
    requires plan { IsLinkPlan plan.now }
    ensures decides { Decides (λ file. file) (or_unlinked name.now plan.now (linked objects.now plan.now)) result }
    ensures tidy { IfOk result (IsTidy false) }
{
    match link(alloc, objects, plan) {
        Ok(file) => Ok(file),
        Err(error) => Err(refuse_link(alloc, name, plan, error)),
    }
}

/// The stop at the rule that a link breaks.
fn refuse_link(alloc: Global, name: &Name, plan: &LinkPlan, error: LinkError) -> PrepareError
    ensures { RefusesLink result name.now plan.now error }
{
    match error {
        LinkError::Rule {
            rule,
            object,
            place,
            name: symbol,
        } => match rule {
            LinkRule::DuplicateStrong | LinkRule::HiddenUndefined => {
                refuse(alloc, link_label(rule), &symbol, object)
            }
            LinkRule::Large | LinkRule::BadIndex | LinkRule::BadSize | LinkRule::NoEntry => {
                refuse(alloc, link_label(rule), name, place)
            }
            _ => refuse(
                alloc,
                link_label(rule),
                object_name(plan, object, name),
                place,
            ),
        },
        LinkError::NoMemory => PrepareError::Memory,
    }
}

/// The name of an object's file; where there is no such object, the plan's.
fn object_name<'a>(plan: &'a LinkPlan, object: u32, name: &'a Name) -> &'a Name
    ensures { result.now ≡ slice_index_or plan.now.objects object name.now }
{
    match plan.objects.as_slice().get(object as usize) {
        Some(file) => file,
        None => name,
    }
}

/// The code and the word of a rule of links.
fn link_label(rule: LinkRule) -> Line
    ensures { result ≡ link_words rule }
{
    label(link_text(rule))
}

/// The same as bytes.
#[tactic(auto, unfolding(crate::specs::Linking::link_words))]
fn link_text(rule: LinkRule) -> &'static [u8]
    ensures words { result.now ≡ link_words rule }
    ensures short { length result.now ≤ 256 }
{
    match rule {
        LinkRule::DuplicateStrong => b"K1 DuplicateStrong",
        LinkRule::HiddenUndefined => b"K2 HiddenUndefined",
        LinkRule::Alignment => b"K3 Alignment",
        LinkRule::Large => b"K4 Large",
        LinkRule::BadIndex => b"K5 BadIndex",
        LinkRule::BadSize => b"K6 BadSize",
        LinkRule::RelocKind => b"K7 RelocKind",
        LinkRule::RelocRange => b"K8 RelocRange",
        LinkRule::RelocAlign => b"K9 RelocAlign",
        LinkRule::GotAddend => b"K10 GotAddend",
        LinkRule::TextAbsolute => b"K11 TextAbsolute",
        LinkRule::CrossSegment => b"K12 CrossSegment",
        LinkRule::PlaceOutside => b"K13 PlaceOutside",
        LinkRule::NoEntry => b"K14 NoEntry",
    }
}
