ghost use Rattle.std.specs.Prelude.{◌≡◌, ℕ, ◌+◌, ◌≤◌, List, IfOk, IfSome, IfNone, true, false, None, Some};
ghost use Rattle.c6x_spec.specs.Memory.{Memory, IsOnMemory};
ghost use Rattle.c6x_packet.specs.Packets.{IsChain};
ghost use Rattle.c6x_exec.specs.Fetched.{number_in, words_in};
ghost use Rattle.c6x_board.specs.Lane.{LieOn};
ghost use Rattle.c6x_machine.specs.Packet.{IsChainOf, may_run, chain_by};

use crate::chain::Chain;
use crate::memory::read_number;
use c6x_access::{Map, Right};
use c6x_board::Board;

/// Whether the word at an address may be run, or is known to be.
fn may(map: &Map, known: bool, at: u32) -> bool
    requires { known ≡ true → may_run map.now at ≡ true }
    ensures { result ≡ may_run map.now at }
{
    known || map.allows(at, 4, Right::Run)
}

/// The word at an address, where it may be run.
#[tactic(auto, using(crate::proofs::Bytes::access_on))]
fn word(map: &Map, board: &Board, known: bool, at: u32) -> Option<u32>
    requires on_board { LieOn board.now map.now }
    requires known { known ≡ true → may_run map.now at ≡ true }
    ensures some { IfSome result (λ word. word ≡ number_in board.now at 4) }
    ensures may { IfSome result (λ word. may_run map.now at ≡ true) }
    ensures none { IfNone result (may_run map.now at ≡ false) }
{
    if may(map, known, at) {
        Some(read_number(board, at, 4))
    } else {
        None
    }
}

/// The words from an address on, this many at most, up to the first whose bit 0 is clear; or the first address of a word
/// that may not be run.
#[tactic(auto, using(crate::proofs::Words::chaining_next, crate::proofs::Words::chaining_bad, crate::proofs::Words::chaining_last, crate::proofs::Words::chaining_full, crate::proofs::Words::chain_last, crate::proofs::Words::chain_full, crate::proofs::Words::open_run))]
fn chain(map: &Map, board: &Board, at: u32, most: usize) -> Result<Chain, u32>
    requires on_board { LieOn board.now map.now }
    requires few { most ≤ 8 }
    ensures value { result ≡ chain_by (may_run map.now) (λ x. number_in board.now x 4) at most }
    ensures chain { IfOk result (IsChainOf most) }
{
    let known = map.allows(at, 4 * most as u32, Right::Run);
    let mut words = [0; 8];
    let mut from = at;
    for place in 0..most {
        match word(map, board, known, from) {
            None => return Err(from),
            Some(word) => {
                words[place] = word;
                if word % 2 == 0 {
                    return Ok(Chain::of(words, place + 1));
                }
            }
        }
        from = from.wrapping_add(4);
    }
    Ok(Chain::of(words, most))
}

/// The words of the packet at an address, or the first address of a word that may not be run.
#[tactic(auto, using(c6x_machine::proofs::AtAddress::chain_whole), unfolding(c6x_machine::specs::Packet::words_by, c6x_machine::specs::Packet::longest))]
pub(crate) fn fetch(map: &Map, board: &Board, at: u32) -> Result<Chain, u32>
    requires on_board { LieOn board.now map.now }
    ensures value { result ≡ words_in map.now board.now at }
    ensures chain { IfOk result IsChain }
{
    if at % 4 != 0 {
        return Err(at);
    }
    chain(map, board, at, 8)
}
