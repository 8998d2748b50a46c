ghost use Rattle.std.specs.Prelude.{◌≡◌, ◌*◌, ◌<◌, ◌≤◌, length, IfOk, IfSome, OnOk};
ghost use Rattle.c6x_asm_object.specs.Sums.{AreBlocks, behind_line, block_summary, empty_summary, joined_all, refreshed};

use crate::asm_section::AsmSection;
use crate::summary::Summary;
use crate::summing::{joined_all, summed};
use std::alloc::{AllocError, Global};
use std::marker::Model;

// The sections of a block.
const BLOCK: usize = 64;

fn block_summary(text: &[u8], sections: &[AsmSection], block: usize) -> Summary
    requires { 64 * block ≤ length sections.now }
    ensures { result ≡ block_summary text.now sections.now block }
{
    let rest = &sections[BLOCK * block..];
    summed(text, &rest[..rest.len().min(BLOCK)])
}

/// The sections of a text, summed up in blocks of 64: behind a line that touches one of them, one block is summed up anew.
#[derive(Drop)]
pub struct Outline {
    blocks: Vec<Summary>,
}

impl Model for Outline {
    ghost use Rattle.std.specs.Prelude.{List};
    ghost use Rattle.c6x_asm_object.specs.declared.summary.Summary.{Summary};

    ghost Value = { List Summary };

    ghost view = { λ o. o.blocks.items };
}

impl Outline {
    /// The outline of sections.
    #[tactic(auto, using(crate::proofs::Blocks::blocks_none))]
    pub fn of(alloc: Global, text: &[u8], sections: &[AsmSection]) -> Result<Outline, AllocError>
        ensures { IfOk result (λ o. AreBlocks text.now sections.now o) }
    {
        let mut outline = Outline {
            blocks: Vec::new(alloc),
        };
        for place in 0..sections.len() {
            outline.refresh(text, &sections[..place + 1], place)?;
        }
        Ok(outline)
    }

    // The block of a section anew.
    fn refresh(
        &mut self,
        text: &[u8],
        sections: &[AsmSection],
        place: usize,
    ) -> Result<(), AllocError>
        requires { place < length sections.now }
        ensures { OnOk result (self.new ≡ refreshed text.now sections.now self.old place) }
    {
        let block = place / BLOCK;
        let summary = block_summary(text, sections, block);
        if block < self.blocks.len() {
            self.blocks[block] = summary;
            Ok(())
        } else {
            self.blocks.push(summary).map_err(AllocError::from)
        }
    }

    /// Follows a line, before which there were so many sections and lines went to `current`: it added a section, or
    /// changed that one.
    #[tactic(auto, unfolding(crate::specs::Sums::behind_line))]
    pub fn follow(
        &mut self,
        text: &[u8],
        sections: &[AsmSection],
        count: usize,
        current: Option<usize>,
    ) -> Result<(), AllocError>
        requires { IfSome current (λ i. i < length sections.now) }
        ensures { OnOk result (self.new ≡ behind_line text.now sections.now self.old count current) }
    {
        if sections.len() > count {
            return self.refresh(text, sections, sections.len() - 1);
        }
        match current {
            None => Ok(()),
            Some(place) => self.refresh(text, sections, place),
        }
    }

    /// The summary of all sections.
    pub fn sum(&self) -> Summary
        ensures { result ≡ joined_all empty_summary self.now }
    {
        joined_all(&self.blocks)
    }
}
