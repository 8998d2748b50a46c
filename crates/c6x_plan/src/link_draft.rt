ghost use Rattle.std.specs.Prelude.{◌≡◌, []};
ghost use Rattle.std.specs.List.{list_any};
ghost use Rattle.std.specs.Str.{bytes_eq};

use crate::limits::{MOST_NEEDED, MOST_OBJECTS};
use crate::lines::words_of;
use crate::link_line::{LinkLine, link_line};
use crate::plan_error::PlanError;
use crate::slots::{add_within, set_once};
use crate::text_line::TextLine;
use c6x_base::{Name, Row};
use std::alloc::Global;

/// What the lines of a link plan have said so far.
#[derive(Debug, Drop)]
pub struct LinkDraft {
    pub output: Option<bool>,
    pub index: Option<u32>,
    pub table: Option<u32>,
    pub entry: Option<Name>,
    pub soname: Option<Name>,
    pub needed: Row<Name>,
    pub objects: Row<Name>,
}

impl LinkDraft {
    ghost use Rattle.c6x_plan.specs.Lines.{said_of};
    ghost use Rattle.c6x_plan.specs.LinkPlans.{link_line};
    ghost use Rattle.c6x_plan.specs.LinkDrafts.{draft_rule, draft_with, link_draft_of};
    ghost use Rattle.c6x_plan.specs.Rules.{Drafts, drafted_by, line_drafted, ruled};

    /// Nothing was said.
    pub fn new(alloc: Global) -> LinkDraft
        ensures { result ≡ link_draft_of [] }
    {
        LinkDraft {
            output: None,
            index: None,
            table: None,
            entry: None,
            soname: None,
            needed: Row::new(alloc),
            objects: Row::new(alloc),
        }
    }

    /// Takes what a line says.
    pub fn add_line(&mut self, alloc: Global, line: TextLine<'_>) -> Result<(), PlanError>
        ensures { Drafts result self.new (line_drafted link_line draft_rule draft_with self.old (said_of line.entry)) }
    {
        let words = words_of(alloc, line.bytes)?;
        match link_line(alloc, &words)? {
            Some(meaning) => self.add(meaning, line.number),
            None => Err(PlanError::Syntax { line: line.number }),
        }
    }

    /// Takes what a line with this number means.
    #[tactic(auto, unfolding(crate::specs::LinkDrafts::draft_rule, crate::specs::LinkDrafts::draft_with))]
    fn add(&mut self, meaning: LinkLine, line: u32) -> Result<(), PlanError>
        ensures { Drafts result self.new (drafted_by draft_with self.old (ruled line (Some meaning) (draft_rule self.old meaning))) }
    {
        match meaning {
            LinkLine::Output { library } => set_once(&mut self.output, library, line),
            LinkLine::Index(index) => set_once(&mut self.index, index, line),
            LinkLine::Table(slots) => set_once(&mut self.table, slots, line),
            LinkLine::Entry(name) => set_once(&mut self.entry, name, line),
            LinkLine::Soname(name) => set_once(&mut self.soname, name, line),
            LinkLine::Needed(name) => {
                if has_name(self.needed.as_slice(), name.as_bytes()) {
                    return Err(PlanError::Name { line });
                }
                add_within(&mut self.needed, name, MOST_NEEDED, line)
            }
            LinkLine::Object(file) => add_within(&mut self.objects, file, MOST_OBJECTS, line),
        }
    }
}

/// The name is one of these.
fn has_name(names: &[Name], name: &[u8]) -> bool
    ensures { result ≡ list_any (λ other. bytes_eq other name.now) names.now }
{
    names.iter().any(|other| other.as_bytes() == name)
}
