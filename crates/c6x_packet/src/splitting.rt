ghost use Rattle.std.specs.Prelude.{◌≡◌, ◌↔◌, ◌≤◌, ℕ, List, length, slice_get, IfOk, MatchResult, Result, Ok, Err, Some};
ghost use Rattle.c6x_encoding.specs.declared.instr.Instr.{Instr};
ghost use Rattle.c6x_encoding.specs.Spelling.{IsValid};
ghost use Rattle.c6x_packet.specs.declared.error.PacketError.{PacketError};
ghost use Rattle.c6x_packet.specs.Packets.{IsChain, IsFirstBroken, IsPacketOf, is_too_long, spelled_from, split_of, tested};

use crate::error::PacketError;
use crate::packet::Packet;
use crate::pairs::has_pair;
use crate::rule::PairRule;
use c6x_isa::{Cond, Instr, Op, decode};

/// The packet that the words of a chain spell, or the first rule that they break.
pub fn split(words: &[u32]) -> Result<Packet, PacketError>
    requires { IsChain words.now }
    ensures packet { (instrs : List Instr) → (result ≡ Ok instrs) ↔ IsPacketOf words.now instrs }
    ensures broken { (e : PacketError) → (result ≡ Err e) ↔ IsFirstBroken words.now e }
    ensures value { result ≡ split_of words.now }
    ensures valid { IfOk result (λ p. (k : ℕ) (i : Instr) → slice_get p k ≡ Some i → IsValid i) }
{
    tested_packet(words)
}

/// The instructions of the words, where they break no rule.
#[tactic(auto, unfolding(crate::specs::Packets::split_of))]
fn tested_packet(words: &[u32]) -> Result<Packet, PacketError>
    requires { length words.now ≤ 8 }
    ensures { result ≡ split_of words.now }
{
    match instructions(words) {
        Ok(packet) => test(words, packet),
        Err(error) => Err(error),
    }
}

/// The instructions of the words, or the position of the first word that spells none.
fn instructions(words: &[u32]) -> Result<Packet, PacketError>
    requires { length words.now ≤ 8 }
    ensures { result ≡ spelled_from 0 words.now }
{
    let mut instrs = [NOTHING; 8];
    for place in 0..words.len() {
        match decode(words[place]) {
            Some(instr) => instrs[place] = instr,
            None => return Err(PacketError::BadWord {
                place: place as u32,
            }),
        }
    }
    Ok(Packet::of(instrs, words.len()))
}

/// What stands behind the last instruction of a packet.
const NOTHING: Instr = Instr {
    condition: Cond::Always,
    op: Op::Nop { cycles: 1 },
    chained: false,
};

/// The rules of a packet, in their order.
#[tactic(auto, unfolding(crate::specs::Packets::tested))]
fn test(words: &[u32], packet: Packet) -> Result<Packet, PacketError>
    ensures { result ≡ tested words.now packet }
{
    if words.len() == 8 && words[7] % 2 == 1 {
        return Err(PacketError::TooLong);
    }
    let instrs = packet.as_slice();
    if has_pair(PairRule::Unit, instrs) {
        return Err(PacketError::UnitTwice);
    }
    if has_pair(PairRule::Side, instrs) {
        return Err(PacketError::SameSide);
    }
    if has_pair(PairRule::Cross, instrs) {
        return Err(PacketError::CrossTwice);
    }
    Ok(packet)
}
