ghost use Rattle.std.specs.Prelude.{◌≡◌, ◌+◌, ◌*◌, ◌<◌, ◌≤◌, length, IfOk};
ghost use Rattle.c6x_base.specs.declared.limits.TheConstants.{MOST_FILE_BYTES};
ghost use Rattle.c6x_elf_headers.specs.Heads.{AreSectionHeadsNear, AreSegmentHeadsNear, section_head, section_heads, segment_head, segment_heads};

use crate::number::read_word;
use crate::section_head::SectionHead;
use crate::segment_head::SegmentHead;
use std::alloc::{AllocError, Global};

/// The `count` program headers from `at` on.
#[tactic(auto, using(crate::proofs::Rows::segment_heads_none, crate::proofs::Rows::segment_heads_more))]
pub fn read_segment_heads(
    alloc: Global,
    big: bool,
    bytes: &[u8],
    at: u32,
    count: u16,
) -> Result<Vec<SegmentHead>, AllocError>
    requires within { 0 < count → at + 32 * count ≤ length bytes.now }
    requires few { length bytes.now ≤ MOST_FILE_BYTES }
    ensures value { IfOk result (λ heads. heads.items ≡ segment_heads big bytes.now at count) }
    ensures near { IfOk result (λ heads. AreSegmentHeadsNear heads.items) }
{
    let mut heads = Vec::new(alloc);
    for k in 0..u32::from(count) {
        heads.push(read_segment_head(big, bytes, at + 32 * k))?;
    }
    Ok(heads)
}

/// The `count` section headers from `at` on.
#[tactic(auto, using(crate::proofs::Rows::section_heads_none, crate::proofs::Rows::section_heads_more))]
pub fn read_section_heads(
    alloc: Global,
    big: bool,
    bytes: &[u8],
    at: u32,
    count: u16,
) -> Result<Vec<SectionHead>, AllocError>
    requires within { 0 < count → at + 40 * count ≤ length bytes.now }
    requires few { length bytes.now ≤ MOST_FILE_BYTES }
    ensures value { IfOk result (λ heads. heads.items ≡ section_heads big bytes.now at count) }
    ensures near { IfOk result (λ heads. AreSectionHeadsNear heads.items) }
{
    let mut heads = Vec::new(alloc);
    for k in 0..u32::from(count) {
        heads.push(read_section_head(big, bytes, at + 40 * k))?;
    }
    Ok(heads)
}

/// The program header at `at`.
#[tactic(auto, unfolding(crate::specs::Heads::segment_head))]
fn read_segment_head(big: bool, bytes: &[u8], at: u32) -> SegmentHead
    requires { at + 32 ≤ length bytes.now }
    ensures { result ≡ segment_head big bytes.now at }
{
    let place = at as usize;
    SegmentHead {
        at,
        kind: read_word(big, bytes, place),
        offset: read_word(big, bytes, place + 4),
        vaddr: read_word(big, bytes, place + 8),
        filesz: read_word(big, bytes, place + 16),
        memsz: read_word(big, bytes, place + 20),
        flags: read_word(big, bytes, place + 24),
        align: read_word(big, bytes, place + 28),
    }
}

/// The section header at `at`.
#[tactic(auto, unfolding(crate::specs::Heads::section_head))]
fn read_section_head(big: bool, bytes: &[u8], at: u32) -> SectionHead
    requires { at + 40 ≤ length bytes.now }
    ensures { result ≡ section_head big bytes.now at }
{
    let place = at as usize;
    SectionHead {
        at,
        name: read_word(big, bytes, place),
        kind: read_word(big, bytes, place + 4),
        flags: read_word(big, bytes, place + 8),
        addr: read_word(big, bytes, place + 12),
        offset: read_word(big, bytes, place + 16),
        size: read_word(big, bytes, place + 20),
        link: read_word(big, bytes, place + 24),
        info: read_word(big, bytes, place + 28),
        align: read_word(big, bytes, place + 32),
        entsize: read_word(big, bytes, place + 36),
    }
}
