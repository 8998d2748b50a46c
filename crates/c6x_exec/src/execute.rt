ghost use Rattle.std.specs.Prelude.{◌≡◌, ◌∷◌, [], ℕ, ◌≤◌, List, length, All, IfSome, None};
ghost use Rattle.c6x_spec.specs.Memory.{Memory};
ghost use Rattle.c6x_encoding.specs.Rows.{FitsEffects, FitsWrite};
ghost use Rattle.c6x_board.specs.Lane.{LieOn};
ghost use Rattle.c6x_exec.specs.Fits.{IsFramed};
ghost use Rattle.c6x_machine.specs.History.{Effect};
ghost use Rattle.c6x_machine.specs.Machine.{executed};
ghost use Rattle.c6x_machine.specs.Origin.{Origin};
ghost use Rattle.c6x_machine.specs.Packet.{destination_of, two_writes_by};
ghost use Rattle.c6x_exec.specs.Pending.{is_due};
ghost use Rattle.c6x_exec.specs.Sound.{IsSound, Stays};
ghost use Rattle.c6x_exec.specs.Stands.{Tracks, Comes};

use crate::context::Context;
use crate::faults::fault;
use crate::note::note;
use crate::pending::{is_write_pending, note_issue, note_result, note_target, register_place};
use c6x_access::Map;
use c6x_board::Board;
use c6x_isa::{Effects, Write};
use c6x_machine::{End, FaultKind};

/// Does what the rows of a packet do at the current cycle, unless it is faulty.
pub(crate) fn execute_rows(
    p: &mut Context,
    map: &Map,
    board: &mut Board,
    rows: &[Effects],
    at: u32,
    next: u32,
) -> Option<End>
    requires sound { IsSound p.old }
    requires fits { All FitsEffects rows.now }
    requires few { length rows.now ≤ 8 }
    requires on_board { LieOn board.old map.now }
    ensures sound { IsSound p.new }
    ensures stays { Stays p.old p.new }
    ensures comes { (s : Origin) (h : List Effect) (n : ℕ) → s.areas ≡ map.now → Tracks p.old board.old s h n n → Comes result (executed s h n at next rows.now) p.new board.new s h n }
    ensures frame { IsFramed map.now board.old board.new }
{
    match fault(p, map, rows, at) {
        Some(end) => Some(end),
        None => {
            note(p, board, rows, next);
            None
        }
    }
}

/// Whether the write of a row lands with an earlier one.
fn is_taken(p: &Context, written: &Option<Write>) -> bool
    requires sound { IsSound p.now }
    requires fits { IfSome written.now FitsWrite }
    ensures { result ≡ two_writes_by (is_due p.now.writes.stamps p.now.writes.values) (destination_of p.now.cycles written.now) }
{
    match written {
        Some(write) => {
            let at = p.cycles + 1 + write.delay as u32;
            is_write_pending(p, at, register_place(write.side, write.register))
        }
        None => false,
    }
}

/// Does at the current cycle what a row does that has neither an access nor a changed base register, unless it is faulty.
fn execute_plain(p: &mut Context, row: &Effects, at: u32, next: u32) -> Option<End>
    requires sound { IsSound p.old }
    requires fits { FitsEffects row.now }
    requires no_access { row.now.access ≡ None }
    requires no_update { row.now.update ≡ None }
    ensures sound { IsSound p.new }
    ensures stays { Stays p.old p.new }
    ensures comes { (b : Memory) (s : Origin) (h : List Effect) (n : ℕ) → Tracks p.old b s h n n → Comes result (executed s h n at next (row.now ∷ [])) p.new b s h n }
{
    if is_taken(p, &row.result) {
        return Some(End::Fault(FaultKind::TwoWrites, at));
    }
    note_issue(p, next, row.wait);
    note_result(p, &row.result);
    note_target(p, row.target);
    None
}

/// Does what a row by itself does at the current cycle, unless it is faulty. Most have a shorter way.
pub(crate) fn execute_row(
    p: &mut Context,
    map: &Map,
    board: &mut Board,
    row: Effects,
    at: u32,
    next: u32,
) -> Option<End>
    requires sound { IsSound p.old }
    requires fits { FitsEffects row }
    requires on_board { LieOn board.old map.now }
    ensures sound { IsSound p.new }
    ensures stays { Stays p.old p.new }
    ensures comes { (s : Origin) (h : List Effect) (n : ℕ) → s.areas ≡ map.now → Tracks p.old board.old s h n n → Comes result (executed s h n at next (row ∷ [])) p.new board.new s h n }
    ensures frame { IsFramed map.now board.old board.new }
{
    if row.access.is_none() && row.update.is_none() {
        execute_plain(p, &row, at, next)
    } else {
        execute_rows(p, map, board, &[row], at, next)
    }
}
