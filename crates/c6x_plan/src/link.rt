ghost use Rattle.std.specs.Prelude.{◌≡◌, ◌^◌, ◌<◌, length, [], IfOk};
ghost use Rattle.c6x_plan.specs.Limits.{IsLinkPlan};
ghost use Rattle.c6x_plan.specs.LinkDrafts.{draft_rule, draft_with, finished, link_draft_of, plan_drafted};
ghost use Rattle.c6x_plan.specs.LinkPlans.{link_line, link_plan};
ghost use Rattle.c6x_plan.specs.Rules.{Reads, drafted};
ghost use Rattle.c6x_plan.specs.TextLines.{lines_left};

use crate::first::lines_behind;
use crate::limits::TABLE;
use crate::lines::Lines;
use crate::link_draft::LinkDraft;
use crate::link_plan::LinkPlan;
use crate::plan_error::PlanError;
use std::alloc::Global;

/// The link plan of a text, or the first rule that it breaks, by line and then by number.
///
/// A line ends with a newline, before which a carriage return is passed over; the last may lack it. Words are separated by
/// spaces or tabs. A line that is blank or begins with `#` is passed over and counted; lines count from 1. The first other
/// line is `c6x-link 1`. Then come, in any order, `output executable` or `output library`, `index N`, `table N`,
/// `entry NAME`, `soname NAME` (each at most once; without them an executable, 0 and 64), `needed NAME` and
/// `object FILE`. Numbers are any of 32 bits.
///
/// Syntax: a line of no such form, one that may come once and comes again, or no first line (line 0). Name: a needed name
/// that an earlier line has. Count: more than 32 needed names or 256 objects, or, behind all lines, no object (line 0).
#[tactic(auto, using(crate::proofs::LinkDrafting::first_refused, crate::proofs::LinkDrafting::line_refused))]
pub fn read_link_plan(alloc: Global, text: &[u8]) -> Result<LinkPlan, PlanError>
    requires { length text.now < 2 ^ 32 }
    ensures reads { Reads result (link_plan text.now) }
    ensures within { IfOk result IsLinkPlan }
{
    let lines = lines_behind(alloc, b"c6x-link", text)?;
    let draft = drafted(alloc, lines)?;
    finished(draft)
}

/// What the lines say.
fn drafted(alloc: Global, lines: Lines<'_>) -> Result<LinkDraft, PlanError>
    ensures { Reads result (drafted link_line draft_rule draft_with (link_draft_of []) (lines_left lines.entry)) }
{
    let mut draft = LinkDraft::new(alloc);
    for line in lines {
        draft.add_line(alloc, line)?;
    }
    Ok(draft)
}

/// The plan of what all lines said.
#[tactic(auto, unfolding(crate::specs::LinkDrafts::finished))]
fn finished(draft: LinkDraft) -> Result<LinkPlan, PlanError>
    ensures reads { Reads result (finished draft) }
    ensures value { IfOk result (λ plan. plan ≡ plan_drafted draft) }
{
    if draft.objects.as_slice().is_empty() {
        return Err(PlanError::Count { line: 0 });
    }
    Ok(LinkPlan {
        library: draft.output.unwrap_or(false),
        index: draft.index.unwrap_or(0),
        table: draft.table.unwrap_or(TABLE),
        entry: draft.entry,
        soname: draft.soname,
        needed: draft.needed,
        objects: draft.objects,
    })
}
