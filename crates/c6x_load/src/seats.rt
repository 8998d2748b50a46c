ghost use Rattle.std.specs.Prelude.{◌≡◌, ◌∷◌, [], length};
ghost use Rattle.c6x_spec.specs.Memory.{CanStart};
ghost use Rattle.c6x_spec.specs.Parts.{AreApart, AreOn, HoldsParts, filled_with};
ghost use Rattle.c6x_load.specs.Loaded.{IsSeated, seat_parts, seat_ranges, stack_part};

use crate::filling::fill_ranges;
use c6x_board::Board;
use c6x_modules::Modules;
use c6x_place::{BoundProcess, Seat};
use c6x_plan::ProcessPlan;

/// Writes the data ranges of a process with their tables and fields, and its stack. Every other byte is as before. `big`
/// is the byte order of its files.
pub fn fill_seat(
    big: bool,
    modules: &Modules,
    plan: &ProcessPlan,
    bound: &BoundProcess,
    texts: &[Option<u32>],
    seat: &Seat,
    board: &mut Board,
)
    requires seated { IsSeated modules.now bound.now seat.now }
    requires room { AreOn board.old (seat_parts big modules.now plan.now.stack bound.now texts.now seat.now) }
    ensures after { board.new ≡ filled_with (seat_parts big modules.now plan.now.stack bound.now texts.now seat.now) board.old }
    ensures start { AreApart (seat_parts big modules.now plan.now.stack bound.now texts.now seat.now) → HoldsParts (seat_parts big modules.now plan.now.stack bound.now texts.now seat.now) board.old board.new }
{
    fill_seat_ranges(big, modules, bound, texts, seat, board);
    board.zero(seat.stack, plan.stack);
}

/// The data ranges.
#[tactic(auto, unfolding(crate::specs::Loaded::seat_ranges))]
fn fill_seat_ranges(
    big: bool,
    modules: &Modules,
    bound: &BoundProcess,
    texts: &[Option<u32>],
    seat: &Seat,
    board: &mut Board,
)
    requires seated { IsSeated modules.now bound.now seat.now }
    requires room { AreOn board.old (seat_ranges big modules.now bound.now texts.now seat.now) }
    ensures { board.new ≡ filled_with (seat_ranges big modules.now bound.now texts.now seat.now) board.old }
{
    let _ = board.len();
    fill_ranges(
        big,
        modules,
        bound.modules.as_slice(),
        texts,
        seat.bases.as_slice(),
        bound.targets.as_slice(),
        board,
    );
}
