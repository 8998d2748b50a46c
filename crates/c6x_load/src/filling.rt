ghost use Rattle.std.specs.Prelude.{◌≡◌, length, slice_get};
ghost use Rattle.c6x_spec.specs.Memory.{CanStart, IsOnMemory, written};
ghost use Rattle.c6x_spec.specs.Parts.{AreOn, filled_with};
ghost use Rattle.c6x_load.specs.Values.{slot_word, target_address};
ghost use Rattle.c6x_load.specs.Loaded.{AreReady, IsReady, range_bytes, range_parts};

use crate::range::fill_data;
use c6x_base::Row;
use c6x_board::Board;
use c6x_modules::Modules;
use c6x_place::Target;

/// Writes the data ranges of a process.
#[tactic(auto, using(crate::proofs::PlanWalks::ranges_more))]
pub fn fill_ranges(
    big: bool,
    modules: &Modules,
    list: &[u32],
    texts: &[Option<u32>],
    bases: &[u32],
    rows: &[Row<Target>],
    board: &mut Board,
)
    requires seated { length list.now ≡ length bases.now }
    requires rows { length list.now ≡ length rows.now }
    requires ready { AreReady modules.now list.now rows.now }
    requires room { AreOn board.old (range_parts big modules.now (slot_word modules.now list.now bases.now) (target_address modules.now list.now texts.now bases.now) list.now bases.now rows.now) }
    requires memory { CanStart board.old.base (length board.old.bytes) }
    ensures { board.new ≡ filled_with (range_parts big modules.now (slot_word modules.now list.now bases.now) (target_address modules.now list.now texts.now bases.now) list.now bases.now rows.now) board.old }
{
    for (position, number) in list.iter().enumerate() {
        fill_range(
            big,
            modules,
            list,
            texts,
            bases,
            *number,
            bases[position],
            rows[position].as_slice(),
            board,
        );
    }
}

/// One of them.
fn fill_range(
    big: bool,
    modules: &Modules,
    list: &[u32],
    texts: &[Option<u32>],
    bases: &[u32],
    number: u32,
    at: u32,
    targets: &[Target],
    board: &mut Board,
)
    requires seated { length list.now ≡ length bases.now }
    requires ready { IsReady modules.now number targets.now }
    requires room { IsOnMemory board.old at (length (range_bytes big (slice_get modules.now number) (slot_word modules.now list.now bases.now) (target_address modules.now list.now texts.now bases.now) targets.now)) }
    requires memory { CanStart board.old.base (length board.old.bytes) }
    ensures after { board.new ≡ written board.old at (range_bytes big (slice_get modules.now number) (slot_word modules.now list.now bases.now) (target_address modules.now list.now texts.now bases.now) targets.now) }
    ensures memory { CanStart board.new.base (length board.new.bytes) }
{
    let image = modules.view(number);
    fill_data(
        big,
        modules.as_slice(),
        list,
        texts,
        bases,
        image,
        targets,
        at,
        board,
    );
}
