ghost use Rattle.std.specs.Prelude.{◌≡◌, ◌++◌, IfOk, List, ℕ, Option, Some, None};
ghost use Rattle.c6x_link.specs.Linked.{code_of, content_of, entry_of, or_zero, parts_of};
ghost use Rattle.c6x_symbols.specs.LinkEntries.{dynamic_relas};
ghost use Rattle.c6x_link.specs.Worked.{IsWorkedOut};
ghost use Rattle.c6x_link.specs.Words.{word_relas};
ghost use Rattle.c6x_link.specs.LinkEntries.{link_entries};

use crate::link_value::Link;
use crate::loader_words::{stub_relas, word_relas};
use crate::sharing::shared_of;
use c6x_base::{Bytes, Name, Row};
use c6x_elf::Rela;
use c6x_layout::Parts;
use c6x_symbols::{Entry, dynamic_relas};
use std::alloc::{AllocError, Global};

/// All that is worked out of a module, where its start and its bytes with their fields set are told.
#[tactic(auto, unfolding(crate::specs::Linked::parts_of), using(crate::proofs::Placed::has_few_symbols))]
pub fn parts_of(
    alloc: Global,
    link: &Link,
    entries: &[Entry],
    start: u32,
    code: Vec<u8>,
    content: Vec<u8>,
) -> Result<Parts, AllocError>
    requires worked { IsWorkedOut link.now }
    requires entries { entries.now ≡ link_entries link.now }
    requires start { start ≡ or_zero (entry_of link.now) }
    requires code { code.items ≡ code_of link.now }
    requires content { content.items ≡ content_of link.now }
    ensures { IfOk result (λ parts. parts ≡ parts_of link.now) }
{
    let plan = link.plan();
    let layout = link.layout();
    Ok(Parts {
        library: plan.library,
        entry: start,
        code: Bytes::of(code),
        content: Bytes::of(content),
        memory: layout.end.saturating_sub(layout.table),
        align: layout.text_align,
        data_align: layout.data_align,
        table: layout.table,
        slots: plan.table,
        index: plan.index,
        shared: shared_of(alloc, link)?,
        soname: copied(alloc, &plan.soname)?,
        needed: all_copied(alloc, plan.needed.as_slice())?,
        relas: all_relas(alloc, link, entries)?,
        jumps: Row::of(stub_relas(alloc, link)?),
    })
}

/// The fields that the loader fills: the value words, and then those of entries.
#[tactic(auto, using(crate::proofs::Placed::has_few_symbols, crate::proofs::Placed::names_symbols))]
fn all_relas(alloc: Global, link: &Link, entries: &[Entry]) -> Result<Row<Rela>, AllocError>
    requires worked { IsWorkedOut link.now }
    requires entries { entries.now ≡ link_entries link.now }
    ensures { IfOk result (λ relas. relas ≡ word_relas link.now ++ dynamic_relas (link_entries link.now)) }
{
    let mut relas = word_relas(alloc, link)?;
    let more = dynamic_relas(alloc, entries)?;
    relas.extend_from_slice(&more)?;
    Ok(Row::of(relas))
}

/// A copy of a name, if there is one.
fn copied(alloc: Global, name: &Option<Name>) -> Result<Option<Name>, AllocError>
    ensures { IfOk result (λ copy. copy ≡ name.now) }
{
    match name {
        Some(name) => Ok(Some(name.copy(alloc)?)),
        None => Ok(None),
    }
}

/// Copies of names.
fn all_copied(alloc: Global, names: &[Name]) -> Result<Row<Name>, AllocError>
    ensures { IfOk result (λ copies. copies ≡ names.now) }
{
    let mut copies = Row::new(alloc);
    for name in names {
        copies.push(name.copy(alloc)?)?;
    }
    Ok(copies)
}
