ghost use Rattle.std.specs.Prelude.{◌≡◌, ◌||◌, not, []};
ghost use Rattle.c6x_plan.specs.RunLines.{has_module, has_process};

use crate::limits::{MOST_MODULES, MOST_PROCESSES};
use crate::lines::words_of;
use crate::module_plan::ModulePlan;
use crate::plan_error::PlanError;
use crate::run_line::{ProcessLine, RunLine, run_line};
use crate::slots::{add_within, set_once};
use crate::text_line::TextLine;
use c6x_base::Row;
use std::alloc::Global;

/// What the lines of a plan have said so far.
#[derive(Debug, Drop)]
pub struct RunDraft {
    pub quantum: Option<u32>,
    pub modules: Row<ModulePlan>,
    pub processes: Row<ProcessLine>,
}

impl RunDraft {
    ghost use Rattle.c6x_plan.specs.Lines.{said_of};
    ghost use Rattle.c6x_plan.specs.RunLines.{run_line};
    ghost use Rattle.c6x_plan.specs.RunDrafts.{draft_rule, draft_with, run_draft_of};
    ghost use Rattle.c6x_plan.specs.Rules.{Drafts, drafted_by, line_drafted, ruled};

    /// Nothing was said.
    pub fn new(alloc: Global) -> RunDraft
        ensures { result ≡ run_draft_of [] }
    {
        RunDraft {
            quantum: None,
            modules: Row::new(alloc),
            processes: Row::new(alloc),
        }
    }

    /// Takes what a line says.
    pub fn add_line(&mut self, alloc: Global, line: TextLine<'_>) -> Result<(), PlanError>
        ensures { Drafts result self.new (line_drafted run_line draft_rule draft_with self.old (said_of line.entry)) }
    {
        let words = words_of(alloc, line.bytes)?;
        match run_line(alloc, &words)? {
            Some(meaning) => self.add(meaning, line.number),
            None => Err(PlanError::Syntax { line: line.number }),
        }
    }

    /// Takes what a line with this number means.
    #[tactic(auto, unfolding(crate::specs::RunDrafts::draft_rule, crate::specs::RunDrafts::draft_with))]
    fn add(&mut self, meaning: RunLine, line: u32) -> Result<(), PlanError>
        ensures { Drafts result self.new (drafted_by draft_with self.old (ruled line (Some meaning) (draft_rule self.old meaning))) }
    {
        match meaning {
            RunLine::Quantum(quantum) => set_once(&mut self.quantum, quantum, line),
            RunLine::Module(image) => {
                if has_module(self.modules.as_slice(), image.name.as_bytes()) {
                    return Err(PlanError::Name { line });
                }
                add_within(&mut self.modules, image, MOST_MODULES, line)
            }
            RunLine::Process(process) => {
                if !self.may_add(&process) {
                    return Err(PlanError::Name { line });
                }
                add_within(&mut self.processes, process, MOST_PROCESSES, line)
            }
        }
    }

    /// The process's module was named, and its own name was not.
    fn may_add(&self, process: &ProcessLine) -> bool
        ensures { result ≡ not (not (has_module self.now.modules process.now.image) || has_process self.now.processes process.now.name) }
    {
        has_module(self.modules.as_slice(), process.image.as_bytes())
            && !has_process(self.processes.as_slice(), process.name.as_bytes())
    }
}

/// A module of this name is there.
fn has_module(modules: &[ModulePlan], name: &[u8]) -> bool
    ensures { result ≡ has_module modules.now name.now }
{
    modules.iter().any(|image| image.name.as_bytes() == name)
}

/// A process of this name is there.
fn has_process(processes: &[ProcessLine], name: &[u8]) -> bool
    ensures { result ≡ has_process processes.now name.now }
{
    processes
        .iter()
        .any(|process| process.name.as_bytes() == name)
}
