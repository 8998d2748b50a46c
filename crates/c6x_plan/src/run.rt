ghost use Rattle.std.specs.Prelude.{◌≡◌, ◌^◌, ◌<◌, ◌≤◌, length, [], map, IfOk, IfSome};
ghost use Rattle.std.specs.List.{position};
ghost use Rattle.std.specs.Str.{bytes_eq};
ghost use Rattle.c6x_plan.specs.Limits.{IsRunPlan};
ghost use Rattle.c6x_plan.specs.RunDrafts.{draft_rule, draft_with, finished, plan_drafted, run_draft_of};
ghost use Rattle.c6x_plan.specs.RunLines.{run_line};
ghost use Rattle.c6x_plan.specs.RunPlans.{number_of, process_of, run_plan};
ghost use Rattle.c6x_plan.specs.Rules.{Reads, drafted};
ghost use Rattle.c6x_plan.specs.TextLines.{lines_left};

use crate::first::lines_behind;
use crate::limits::QUANTUM;
use crate::lines::Lines;
use crate::module_plan::ModulePlan;
use crate::plan_error::PlanError;
use crate::process_plan::ProcessPlan;
use crate::run_draft::RunDraft;
use crate::run_line::ProcessLine;
use crate::run_plan::RunPlan;
use c6x_base::Row;
use std::alloc::{AllocError, Global};

/// The plan of a text, or the first rule that it breaks, by line and then by number.
///
/// Lines, words and passed over lines are as in [`crate::read_link_plan`]. The first line is `c6x-plan 1`. Then come, in
/// any order, `quantum N` (at most once; without it 100), `module NAME FILE` and
/// `process NAME MODULE limit N stack N arg N`.
///
/// Syntax: a line of no such form, a number out of its limits, a second quantum, or no first line (line 0). Name: a name
/// given twice to modules or to processes, or a process whose module no earlier line names. Count: more than 32 modules or
/// 16 processes, or, behind all lines, no process (line 0).
#[tactic(auto, using(crate::proofs::RunDrafting::first_refused, crate::proofs::RunDrafting::line_refused, crate::proofs::RunDrafting::few_modules))]
pub fn read_plan(alloc: Global, text: &[u8]) -> Result<RunPlan, PlanError>
    requires { length text.now < 2 ^ 32 }
    ensures reads { Reads result (run_plan text.now) }
    ensures within { IfOk result IsRunPlan }
{
    let lines = lines_behind(alloc, b"c6x-plan", text)?;
    let draft = drafted(alloc, lines)?;
    finished(alloc, draft)
}

/// What the lines say.
fn drafted(alloc: Global, lines: Lines<'_>) -> Result<RunDraft, PlanError>
    ensures { Reads result (drafted run_line draft_rule draft_with (run_draft_of []) (lines_left lines.entry)) }
{
    let mut draft = RunDraft::new(alloc);
    for line in lines {
        draft.add_line(alloc, line)?;
    }
    Ok(draft)
}

/// The plan of what all lines said.
#[tactic(auto, unfolding(crate::specs::RunDrafts::finished))]
fn finished(alloc: Global, draft: RunDraft) -> Result<RunPlan, PlanError>
    requires { length draft.modules ≤ 32 }
    ensures reads { Reads result (finished draft) }
    ensures value { IfOk result (λ plan. plan ≡ plan_drafted draft) }
    ensures some { IfOk result (λ plan. 1 ≤ length plan.processes) }
{
    if draft.processes.as_slice().is_empty() {
        return Err(PlanError::Count { line: 0 });
    }
    let processes = processes_of(alloc, draft.modules.as_slice(), draft.processes.as_slice())?;
    Ok(RunPlan {
        quantum: draft.quantum.unwrap_or(QUANTUM),
        modules: draft.modules,
        processes,
    })
}

/// The processes of these lines, over these modules.
fn processes_of(
    alloc: Global,
    modules: &[ModulePlan],
    lines: &[ProcessLine],
) -> Result<Row<ProcessPlan>, AllocError>
    requires { length modules.now ≤ 32 }
    ensures { IfOk result (λ processes. processes ≡ map (process_of modules.now) lines.now) }
{
    let mut processes = Row::new(alloc);
    for line in lines {
        processes.push(process_of(alloc, modules, line)?)?;
    }
    Ok(processes)
}

/// The process of a line.
fn process_of(
    alloc: Global,
    modules: &[ModulePlan],
    line: &ProcessLine,
) -> Result<ProcessPlan, AllocError>
    requires { length modules.now ≤ 32 }
    ensures { IfOk result (λ process. process ≡ process_of modules.now line.now) }
{
    Ok(ProcessPlan {
        name: line.name.copy(alloc)?,
        module: number_of(modules, line.image.as_bytes()) as u32,
        limit: line.sizes.limit,
        stack: line.sizes.stack,
        arg: line.sizes.arg,
    })
}

/// The number of the module with this name, or how many there are where none has it.
fn number_of(modules: &[ModulePlan], name: &[u8]) -> usize
    ensures number { result ≡ number_of modules.now name.now }
    ensures within { result ≤ length modules.now }
{
    match place_of(modules, name) {
        Some(number) => number,
        None => modules.len(),
    }
}

/// Where the module with this name stands.
fn place_of(modules: &[ModulePlan], name: &[u8]) -> Option<usize>
    ensures place { result ≡ position (λ image. bytes_eq image.name name.now) modules.now }
    ensures within { IfSome result (λ place. place < length modules.now) }
{
    modules
        .iter()
        .position(|image| image.name.as_bytes() == name)
}
