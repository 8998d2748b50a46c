ghost use Rattle.std.specs.Prelude.{◌≡◌, ℕ, ◌+◌, ◌<◌, ◌≤◌, List, length, All, Ok, ◌∷◌, [], None, true, false};
ghost use Rattle.c6x_spec.specs.Memory.{Memory};
ghost use Rattle.c6x_encoding.specs.Spelling.{IsValid};
ghost use Rattle.c6x_packet.specs.Packets.{IsChain, split_of};
ghost use Rattle.c6x_board.specs.Lane.{LieOn};
ghost use Rattle.c6x_exec.specs.Fits.{IsFramed};
ghost use Rattle.c6x_machine.specs.History.{Effect};
ghost use Rattle.c6x_machine.specs.Machine.{Life, fault_of_packet, instructed, packet_of, issued, outcome_of, next_of};
ghost use Rattle.c6x_machine.specs.Origin.{Origin};
ghost use Rattle.c6x_exec.specs.Sound.{IsSound, IsWithin, Stays};
ghost use Rattle.c6x_exec.specs.Stands.{Tracks, Comes, Keeps};

use crate::address::issue_address;
use crate::context::Context;
use crate::cycle_end::end_cycle;
use crate::execute::{execute_row, execute_rows};
use crate::fetch::fetch;
use crate::gate::{EXIT_GATE, PUT_GATE};
use crate::known::KnownPackets;
use crate::put::put;
use crate::register_file::tick;
use crate::rows::rows_at;
use c6x_access::Map;
use c6x_base::Side;
use c6x_board::{Board, Lane};
use c6x_isa::{Instr, effects};
use c6x_machine::{End, FaultKind};
use c6x_packet::{PacketError, split};

/// The fault of words that are no packet.
fn fault_of_packet(at: u32, error: PacketError) -> End
    ensures { result ≡ fault_of_packet at error }
{
    match error {
        PacketError::BadWord { place } => {
            End::Fault(FaultKind::BadWord, at.wrapping_add(place.wrapping_mul(4)))
        }
        _ => End::Fault(FaultKind::BadPacket, at),
    }
}

/// Does the instructions of a packet.
fn execute_packet(
    p: &mut Context,
    map: &Map,
    board: &mut Board,
    instrs: &[Instr],
    at: u32,
) -> Option<End>
    requires sound { IsSound p.old }
    requires few { length instrs.now ≤ 8 }
    requires valid { All IsValid instrs.now }
    requires on_board { LieOn board.old map.now }
    ensures sound { IsSound p.new }
    ensures stays { Stays p.old p.new }
    ensures comes { (s : Origin) (h : List Effect) (n : ℕ) → s.areas ≡ map.now → Tracks p.old board.old s h n n → Comes result (instructed s h n at (Ok instrs.now)) p.new board.new s h n }
    ensures frame { IsFramed map.now board.old board.new }
{
    let next = at.wrapping_add(4 * instrs.len() as u32);
    let rows = rows_at(instrs, at, next, &p.registers);
    execute_rows(p, map, board, rows.as_slice(), at, next)
}

/// Does an instruction that is a packet by itself.
fn execute_instr(
    p: &mut Context,
    map: &Map,
    board: &mut Board,
    instr: &Instr,
    at: u32,
) -> Option<End>
    requires sound { IsSound p.old }
    requires valid { IsValid instr.now }
    requires on_board { LieOn board.old map.now }
    ensures sound { IsSound p.new }
    ensures stays { Stays p.old p.new }
    ensures comes { (s : Origin) (h : List Effect) (n : ℕ) → s.areas ≡ map.now → Tracks p.old board.old s h n n → Comes result (instructed s h n at (Ok (instr.now ∷ []))) p.new board.new s h n }
    ensures frame { IsFramed map.now board.old board.new }
{
    let next = at.wrapping_add(4);
    let row = effects(instr, at, next, &p.registers);
    execute_row(p, map, board, row, at, next)
}

/// Does the instructions of a packet, for which one by itself has a shorter way.
fn execute_instrs(
    p: &mut Context,
    map: &Map,
    board: &mut Board,
    instrs: &[Instr],
    at: u32,
) -> Option<End>
    requires sound { IsSound p.old }
    requires few { length instrs.now ≤ 8 }
    requires valid { All IsValid instrs.now }
    requires on_board { LieOn board.old map.now }
    ensures sound { IsSound p.new }
    ensures stays { Stays p.old p.new }
    ensures comes { (s : Origin) (h : List Effect) (n : ℕ) → s.areas ≡ map.now → Tracks p.old board.old s h n n → Comes result (instructed s h n at (Ok instrs.now)) p.new board.new s h n }
    ensures frame { IsFramed map.now board.old board.new }
{
    if instrs.len() == 1 {
        execute_instr(p, map, board, &instrs[0], at)
    } else {
        execute_packet(p, map, board, instrs, at)
    }
}

/// Does words that are not known yet, and keeps the packet that they spell.
fn execute_new(
    p: &mut Context,
    map: &Map,
    board: &mut Board,
    known: &mut KnownPackets,
    words: &[u32],
    at: u32,
) -> Option<End>
    requires sound { IsSound p.old }
    requires chain { IsChain words.now }
    requires on_board { LieOn board.old map.now }
    ensures sound { IsSound p.new }
    ensures stays { Stays p.old p.new }
    ensures comes { (s : Origin) (h : List Effect) (n : ℕ) → s.areas ≡ map.now → Tracks p.old board.old s h n n → Comes result (instructed s h n at (split_of words.now)) p.new board.new s h n }
    ensures frame { IsFramed map.now board.old board.new }
{
    match split(words) {
        Ok(packet) => {
            let instrs = packet.as_slice();
            known.add(at, words, instrs);
            execute_instrs(p, map, board, instrs, at)
        }
        Err(error) => Some(fault_of_packet(at, error)),
    }
}

/// Does the words of a packet.
fn execute_words(
    p: &mut Context,
    map: &Map,
    board: &mut Board,
    known: &mut KnownPackets,
    words: &[u32],
    at: u32,
) -> Option<End>
    requires sound { IsSound p.old }
    requires chain { IsChain words.now }
    requires on_board { LieOn board.old map.now }
    ensures sound { IsSound p.new }
    ensures stays { Stays p.old p.new }
    ensures comes { (s : Origin) (h : List Effect) (n : ℕ) → s.areas ≡ map.now → Tracks p.old board.old s h n n → Comes result (instructed s h n at (split_of words.now)) p.new board.new s h n }
    ensures frame { IsFramed map.now board.old board.new }
{
    match known.find(at, words) {
        Some(instrs) => execute_instrs(p, map, board, instrs, at),
        None => execute_new(p, map, board, known, words, at),
    }
}

/// Does the packet at an address.
fn packet(
    p: &mut Context,
    map: &Map,
    board: &mut Board,
    known: &mut KnownPackets,
    at: u32,
) -> Option<End>
    requires sound { IsSound p.old }
    requires on_board { LieOn board.old map.now }
    ensures sound { IsSound p.new }
    ensures stays { Stays p.old p.new }
    ensures comes { (s : Origin) (h : List Effect) (n : ℕ) → s.areas ≡ map.now → Tracks p.old board.old s h n n → Comes result (packet_of s h n at) p.new board.new s h n }
    ensures frame { IsFramed map.now board.old board.new }
{
    match fetch(map, board, at) {
        Ok(chain) => execute_words(p, map, board, known, chain.as_slice(), at),
        Err(bad) => Some(End::Fault(FaultKind::Fetch, bad)),
    }
}

/// Does the packet or the gate at an address.
fn issue(
    p: &mut Context,
    map: &Map,
    board: &mut Board,
    known: &mut KnownPackets,
    at: u32,
) -> Option<End>
    requires sound { IsSound p.old }
    requires on_board { LieOn board.old map.now }
    ensures sound { IsSound p.new }
    ensures stays { Stays p.old p.new }
    ensures comes { (s : Origin) (h : List Effect) (n : ℕ) → s.areas ≡ map.now → Tracks p.old board.old s h n n → Comes result (issued s h n at) p.new board.new s h n }
    ensures frame { IsFramed map.now board.old board.new }
{
    if at == EXIT_GATE {
        Some(End::Exit(p.registers.get(Side::A, 4)))
    } else if at == PUT_GATE {
        put(p)
    } else {
        packet(p, map, board, known, at)
    }
}

/// Does what is issued at the current cycle, if anything is.
fn step(p: &mut Context, map: &Map, board: &mut Board, known: &mut KnownPackets) -> Option<End>
    requires sound { IsSound p.old }
    requires on_board { LieOn board.old map.now }
    ensures sound { IsSound p.new }
    ensures stays { Stays p.old p.new }
    ensures comes { (s : Origin) (h : List Effect) (n : ℕ) → s.areas ≡ map.now → Tracks p.old board.old s h n n → Comes result (outcome_of s h n) p.new board.new s h n }
    ensures frame { IsFramed map.now board.old board.new }
{
    match issue_address(p) {
        Some(at) => issue(p, map, board, known, at),
        None => None,
    }
}

/// Does one cycle on a lane of the areas.
pub(crate) fn advance(p: &mut Context, lane: &mut Lane<'_>, known: &mut KnownPackets)
    requires sound { IsSound p.old }
    requires more { p.old.cycles < p.old.limit }
    requires on_board { LieOn lane.old.board.now lane.old.map.now }
    ensures sound { IsSound p.new }
    ensures within { IsWithin p.new }
    ensures cycles { p.new.cycles ≡ p.old.cycles + 1 }
    ensures limit { p.new.limit ≡ p.old.limit }
    ensures same_board { lane.new.board.ghost_name ≡ lane.old.board.ghost_name }
    ensures same_map { lane.new.map.now ≡ lane.old.map.now }
    ensures keeps { (s : Origin) (l : Life) → s.areas ≡ lane.old.map.now → Keeps p.old lane.old.board.now s l → Keeps p.new lane.new.board.now s (next_of s l) }
    ensures frame { IsFramed lane.old.map.now lane.old.board.now lane.new.board.now }
{
    let end = step(p, lane.map, lane.board, known);
    end_cycle(p, end);
}

/// Does one cycle where nothing is issued at it and it is not the last, and tells whether it did.
pub(crate) fn wait(p: &mut Context) -> bool
    requires sound { IsSound p.old }
    requires more { p.old.cycles < p.old.limit }
    ensures sound { IsSound p.new }
    ensures within { IsWithin p.new }
    ensures limit { p.new.limit ≡ p.old.limit }
    ensures ended { p.new.ended ≡ p.old.ended }
    ensures unchanged { result ≡ false → p.new ≡ p.old }
    ensures cycles { result ≡ true → p.new.cycles ≡ p.old.cycles + 1 }
    ensures keeps { result ≡ true → (b : Memory) (s : Origin) (l : Life) → p.old.ended ≡ None → Keeps p.old b s l → Keeps p.new b s (next_of s l) }
{
    if p.cycles + 1 == p.limit {
        return false;
    }
    match issue_address(p) {
        Some(_) => false,
        None => {
            tick(p);
            true
        }
    }
}
