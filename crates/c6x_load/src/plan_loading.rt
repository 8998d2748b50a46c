ghost use Rattle.std.specs.Prelude.{◌≡◌, ◌+◌, ◌++◌, All, false, length};
ghost use Rattle.c6x_spec.specs.Memory.{CanStart};
ghost use Rattle.c6x_spec.specs.Parts.{AreOn, HoldsParts, filled_with};
ghost use Rattle.c6x_place.specs.Plans.{IsKnown, IsPlacement, bound_plans};
ghost use Rattle.c6x_load.specs.Loaded.{AreAllSeated, plan_parts, seats_parts, text_parts};
ghost use Rattle.c6x_load.specs.ReadBack.{AreSeatsReadBack};

use crate::seats::fill_seat;
use crate::texts::load_texts;
use c6x_board::Board;
use c6x_modules::Modules;
use c6x_place::{Bound, BoundProcess, Placement, Seat};
use c6x_plan::ProcessPlan;

/// Writes the start bytes of all processes of a plan. Every other byte of the memory is as before, which `start` says
/// part by part.
pub fn load_parts(
    modules: &Modules,
    processes: &[ProcessPlan],
    bound: &Bound,
    placement: &Placement,
    board: &mut Board,
)
    requires known { All (IsKnown modules.now) processes.now }
    requires bound { bound.now.processes ≡ bound_plans modules.now processes.now }
    requires placed { IsPlacement modules.now processes.now bound.now.processes board.old.base (board.old.base + length board.old.bytes) placement.now }
    ensures after { board.new ≡ filled_with (plan_parts false modules.now processes.now bound.now.processes placement.now) board.old }
    ensures start { HoldsParts (plan_parts false modules.now processes.now bound.now.processes placement.now) board.old board.new }
    ensures read_back { AreSeatsReadBack board.new modules.now placement.now.texts bound.now.processes placement.now.seats }
{
    let _ = (board.len(), modules.len());
    let texts = placement.texts.as_slice();
    let seats = placement.seats.as_slice();
    let bounds = bound.processes.as_slice();
    load_all(modules, processes, bounds, texts, seats, board);
}

/// Writes the texts and the seats.
fn load_all(
    modules: &Modules,
    processes: &[ProcessPlan],
    bounds: &[BoundProcess],
    texts: &[Option<u32>],
    seats: &[Seat],
    board: &mut Board,
)
    requires texts { length modules.now ≡ length texts.now }
    requires bounds { length processes.now ≡ length bounds.now }
    requires seats { length processes.now ≡ length seats.now }
    requires seated { AreAllSeated modules.now bounds.now seats.now }
    requires room { AreOn board.old (text_parts modules.now texts.now ++ seats_parts false modules.now texts.now processes.now bounds.now seats.now) }
    ensures { board.new ≡ filled_with (text_parts modules.now texts.now ++ seats_parts false modules.now texts.now processes.now bounds.now seats.now) board.old }
{
    load_texts(modules, texts, board);
    fill_seats(modules, processes, bounds, texts, seats, board);
}

/// Writes the seats of the processes.
fn fill_seats(
    modules: &Modules,
    processes: &[ProcessPlan],
    bounds: &[BoundProcess],
    texts: &[Option<u32>],
    seats: &[Seat],
    board: &mut Board,
)
    requires bounds { length processes.now ≡ length bounds.now }
    requires seats { length processes.now ≡ length seats.now }
    requires seated { AreAllSeated modules.now bounds.now seats.now }
    requires room { AreOn board.old (seats_parts false modules.now texts.now processes.now bounds.now seats.now) }
    ensures { board.new ≡ filled_with (seats_parts false modules.now texts.now processes.now bounds.now seats.now) board.old }
{
    for (process, plan) in processes.iter().enumerate() {
        fill_seat(
            false,
            modules,
            plan,
            &bounds[process],
            texts,
            &seats[process],
            board,
        );
    }
}
