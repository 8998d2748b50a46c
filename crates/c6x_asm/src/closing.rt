ghost use Rattle.std.specs.Prelude.{◌≡◌, ◌-◌, ◌<◌, ◌≤◌, map, take, length, IfOk};
ghost use Rattle.c6x_packet.specs.Packets.{IsChain};
ghost use Rattle.c6x_asm.specs.Packets.{even, closed, is_packet};
ghost use Rattle.c6x_asm_object.specs.Sections.{odd};

use c6x_packet::split;
use std::alloc::{AllocError, Global};

fn odd(word: u32) -> u32
    ensures { result ≡ odd word }
{
    if word % 2 == 0 { word + 1 } else { word }
}

fn even(word: u32) -> u32
    ensures { result ≡ even word }
{
    word - word % 2
}

fn all_odd(alloc: Global, words: &[u32]) -> Result<Vec<u32>, AllocError>
    ensures { IfOk result (λ v. v.items ≡ map odd words.now) }
{
    words.iter().map(|word| odd(*word)).collect(alloc)
}

#[tactic(auto, unfolding(crate::specs::Packets::closed), using(crate::proofs::Chains::closed_chain))]
fn closed(alloc: Global, words: &[u32]) -> Result<Vec<u32>, AllocError>
    requires some { 1 ≤ length words.now }
    requires few { length words.now ≤ 8 }
    ensures is { IfOk result (λ v. v.items ≡ closed words.now) }
    ensures chain { IfOk result (λ v. IsChain v.items) }
{
    let last = words.len() - 1;
    let mut all = all_odd(alloc, &words[..last])?;
    all.push(even(words[last])).map_err(AllocError::from)?;
    Ok(all)
}

/// Whether these words may stand in one packet.
#[tactic(auto, unfolding(crate::specs::Packets::is_packet))]
pub fn is_packet(alloc: Global, words: &[u32]) -> Result<bool, AllocError>
    ensures { IfOk result (λ is. is ≡ is_packet words.now) }
{
    if words.is_empty() {
        return Ok(true);
    }
    if words.len() > 8 {
        return Ok(false);
    }
    let chain = closed(alloc, words)?;
    Ok(split(chain.as_slice()).is_ok())
}
