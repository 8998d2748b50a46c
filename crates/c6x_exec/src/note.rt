ghost use Rattle.std.specs.Prelude.{◌≡◌, ℕ, ◌+◌, ◌<◌, ◌≤◌, List, length, take, fold, max, All, IfSome, false};
ghost use Rattle.c6x_spec.specs.Memory.{IsOnMemory};
ghost use Rattle.c6x_access.specs.declared.area.Area.{Area};
ghost use Rattle.c6x_encoding.specs.Rows.{write_of_access, FitsWrite, FitsAccess, FitsEffects};
ghost use Rattle.c6x_exec.specs.declared.context.Context.{Context};
ghost use Rattle.c6x_exec.specs.Fetched.{number_in};
ghost use Rattle.c6x_board.specs.Lane.{LieOn};
ghost use Rattle.c6x_exec.specs.Fits.{IsAccessOn, IsClean, AreClean, AreOn, IsFramed, IsSized};
ghost use Rattle.c6x_machine.specs.History.{Effect};
ghost use Rattle.c6x_machine.specs.Origin.{Origin};
ghost use Rattle.c6x_machine.specs.Packet.{with_load, with_row, with_store, with_stored, with_packet, wait_of};
ghost use Rattle.c6x_exec.specs.Sound.{IsSound, Stays};
ghost use Rattle.c6x_exec.specs.Stands.{Tracks, HoldsAt};

use crate::context::Context;
use crate::memory::{read_number, store};
use crate::pending::{note_issue, note_result, note_target};
use c6x_board::Board;
use c6x_isa::{Effects, Job, MemOp, Write, write_of_load};

/// What an access writes into a register.
fn loaded(board: &Board, access: &MemOp) -> Option<Write>
    requires fits { FitsAccess access.now }
    requires on { IsOnMemory board.now access.now.address access.now.size }
    ensures value { result ≡ write_of_access access.now (number_in board.now access.now.address access.now.size) }
    ensures fits { IfSome result FitsWrite }
{
    match access.job {
        Job::Load { .. } => {
            let number = read_number(board, access.address, access.size);
            write_of_load(*access, number)
        }
        Job::Store { .. } => None,
    }
}

/// Notes the load of a row, if it has one. It reads what the board holds.
fn note_load(p: &mut Context, board: &Board, access: &Option<MemOp>)
    requires sound { IsSound p.old }
    requires fits { IfSome access.now FitsAccess }
    requires on { IsAccessOn board.now access.now }
    ensures sound { IsSound p.new }
    ensures stays { Stays p.old p.new }
    ensures tracks { (s : Origin) (g h : List Effect) (n : ℕ) → HoldsAt board.now s g n → IsClean s.areas access.now → Tracks p.old board.now s h n (n + 1) → Tracks p.new board.now s (with_load s g n access.now h) n (n + 1) }
{
    if let Some(access) = access {
        let write = loaded(board, access);
        note_result(p, &write);
    }
}

/// Notes what a row does but for its store.
fn note_row(p: &mut Context, board: &Board, row: &Effects)
    requires sound { IsSound p.old }
    requires fits { FitsEffects row.now }
    requires on { IsAccessOn board.now row.now.access }
    ensures sound { IsSound p.new }
    ensures stays { Stays p.old p.new }
    ensures tracks { (s : Origin) (g h : List Effect) (n : ℕ) → HoldsAt board.now s g n → IsClean s.areas row.now.access → Tracks p.old board.now s h n (n + 1) → Tracks p.new board.now s (with_row s g n h row.now) n (n + 1) }
{
    note_result(p, &row.result);
    note_result(p, &row.update);
    note_load(p, board, &row.access);
    note_target(p, row.target);
}

/// Notes what the rows do but for their stores.
fn note_rows(p: &mut Context, board: &Board, rows: &[Effects])
    requires sound { IsSound p.old }
    requires fits { All FitsEffects rows.now }
    requires on { AreOn board.now rows.now }
    ensures sound { IsSound p.new }
    ensures stays { Stays p.old p.new }
    ensures tracks { (s : Origin) (g h : List Effect) (n : ℕ) → HoldsAt board.now s g n → AreClean s.areas rows.now → Tracks p.old board.now s h n (n + 1) → Tracks p.new board.now s (fold (with_row s g n) h rows.now) n (n + 1) }
{
    for row in rows {
        note_row(p, board, row);
    }
}

/// Does the store of a row, if it has one.
fn store_row(board: &mut Board, access: &Option<MemOp>)
    requires fits { IfSome access.now FitsAccess }
    requires on { IsAccessOn board.old access.now }
    ensures tracks { (p : Context) (s : Origin) (h : List Effect) (n : ℕ) → LieOn board.old s.areas → Tracks p board.old s h n (n + 1) → Tracks p board.new s (with_store false n h access.now) n (n + 1) }
    ensures frame { (areas : List Area) → IsClean areas access.now → IsFramed areas board.old board.new }
    ensures sized { IsSized board.old board.new }
{
    if let Some(access) = access {
        match access.job {
            Job::Store { value } => store(board, access.address, access.size, value),
            Job::Load { .. } => {}
        }
    }
}

/// Does the stores of the rows.
fn store_rows(board: &mut Board, rows: &[Effects])
    requires fits { All FitsEffects rows.now }
    requires on { AreOn board.old rows.now }
    ensures tracks { (p : Context) (s : Origin) (h : List Effect) (n : ℕ) → LieOn board.old s.areas → Tracks p board.old s h n (n + 1) → Tracks p board.new s (fold (with_stored false n) h rows.now) n (n + 1) }
    ensures frame { (areas : List Area) → AreClean areas rows.now → IsFramed areas board.old board.new }
{
    for row in rows {
        store_row(board, &row.access);
    }
}

/// How long a packet waits.
fn longest_wait(rows: &[Effects]) -> u8
    ensures { result ≡ wait_of rows.now }
{
    let mut most = 0;
    for row in rows {
        most = most.max(row.wait);
    }
    most
}

/// Notes all that a packet does at the current cycle: the writes, loads and branches of its rows, then their stores.
#[tactic(auto, unfolding(c6x_machine::specs::Packet::with_packet))]
pub(crate) fn note(p: &mut Context, board: &mut Board, rows: &[Effects], next: u32)
    requires sound { IsSound p.old }
    requires fits { All FitsEffects rows.now }
    requires on { AreOn board.old rows.now }
    ensures sound { IsSound p.new }
    ensures stays { Stays p.old p.new }
    ensures tracks { (s : Origin) (h : List Effect) (n : ℕ) → LieOn board.old s.areas → AreClean s.areas rows.now → Tracks p.old board.old s h n n → Tracks p.new board.new s (with_packet s h n next rows.now) n (n + 1) }
    ensures frame { (areas : List Area) → AreClean areas rows.now → IsFramed areas board.old board.new }
{
    let wait = longest_wait(rows);
    note_issue(p, next, wait);
    note_rows(p, board, rows);
    store_rows(board, rows);
}
