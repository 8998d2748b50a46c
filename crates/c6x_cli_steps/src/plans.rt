ghost use Rattle.std.specs.Prelude.{◌≡◌, ◌<◌, ◌≤◌, ◌^◌, length, IfOk};
ghost use Rattle.c6x_plan.specs.LinkPlans.{link_plan};
ghost use Rattle.c6x_plan.specs.Limits.{IsLinkPlan, IsRunPlan};
ghost use Rattle.c6x_plan.specs.RunPlans.{run_plan};
ghost use Rattle.c6x_cli_steps.specs.Plans.{link_plan_steps, or_bad_plan, run_plan_steps};
ghost use Rattle.c6x_cli_steps.specs.Refusing.{RefusesPlan};
ghost use Rattle.c6x_cli_steps.specs.Steps.{Decides, Prepares};

use crate::files::fetch_whole;
use crate::prepare_error::PrepareError;
use crate::refusals::{label, refuse};
use c6x_base::Name;
use c6x_plan::{LinkPlan, PlanError, RunPlan, read_link_plan, read_plan};
use c6x_ports::Shelf;
use std::alloc::Global;

/// The link plan with this name.
pub fn fetch_link_plan<S: Shelf>(
    alloc: Global,
    shelf: &mut S,
    name: &Name,
) -> Result<LinkPlan, PrepareError>
    ensures prepares { Prepares (λ plan. plan) (λ told. link_plan_steps told name.now) (S.seen shelf.old) (S.seen shelf.new) result }
    ensures within { IfOk result IsLinkPlan }
{
    let text = fetch_whole(alloc, shelf, name)?;
    link_plan_of(alloc, name, &text)
}

/// The link plan of a text, or the first rule that the text breaks.
fn link_plan_of(alloc: Global, name: &Name, text: &[u8]) -> Result<LinkPlan, PrepareError>
    requires { length text.now < 2 ^ 32 }
    ensures decides { Decides (λ plan. plan) (or_bad_plan name.now (link_plan text.now)) result }
    ensures within { IfOk result IsLinkPlan }
{
    match read_link_plan(alloc, text) {
        Ok(plan) => Ok(plan),
        Err(broken) => Err(refuse_plan(alloc, name, broken)),
    }
}

/// The plan with this name.
pub fn fetch_plan<S: Shelf>(
    alloc: Global,
    shelf: &mut S,
    name: &Name,
) -> Result<RunPlan, PrepareError>
    ensures prepares { Prepares (λ plan. plan) (λ told. run_plan_steps told name.now) (S.seen shelf.old) (S.seen shelf.new) result }
    ensures within { IfOk result IsRunPlan }
{
    let text = fetch_whole(alloc, shelf, name)?;
    plan_of(alloc, name, &text)
}

/// The plan of a text, or the first rule that the text breaks.
fn plan_of(alloc: Global, name: &Name, text: &[u8]) -> Result<RunPlan, PrepareError>
    requires { length text.now < 2 ^ 32 }
    ensures decides { Decides (λ plan. plan) (or_bad_plan name.now (run_plan text.now)) result }
    ensures within { IfOk result IsRunPlan }
{
    match read_plan(alloc, text) {
        Ok(plan) => Ok(plan),
        Err(broken) => Err(refuse_plan(alloc, name, broken)),
    }
}

/// The stop at the rule that a plan's text breaks.
#[tactic(auto, unfolding(crate::specs::Plans::plan_words))]
fn refuse_plan(alloc: Global, name: &Name, broken: PlanError) -> PrepareError
    ensures { RefusesPlan result name.now broken }
{
    match broken {
        PlanError::Syntax { line } => refuse(alloc, label(b"N1 Syntax"), name, line),
        PlanError::Name { line } => refuse(alloc, label(b"N2 Name"), name, line),
        PlanError::Count { line } => refuse(alloc, label(b"N3 Count"), name, line),
        PlanError::NoMemory => PrepareError::Memory,
    }
}
