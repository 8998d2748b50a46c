ghost use Rattle.std.specs.Prelude.{◌≡◌, ◌+◌, ◌<◌, ◌^◌, All, length};
ghost use Rattle.c6x_spec.specs.Memory.{IsOnMemory};
ghost use Rattle.c6x_spec.specs.Parts.{filled_with};
ghost use Rattle.c6x_load.specs.Values.{IsFieldOf, field_parts, moved_parts, target_address};

use crate::address::{field_value, target_address};
use crate::table::put_word;
use c6x_board::Board;
use c6x_module::{Field, Module};
use c6x_place::Target;

/// Writes the fields of a data range, at `vaddr` in its file, that stands at `at`.
pub fn fill_fields(
    big: bool,
    modules: &[Module],
    list: &[u32],
    texts: &[Option<u32>],
    bases: &[u32],
    fields: &[Field],
    targets: &[Target],
    vaddr: u32,
    size: u32,
    at: u32,
    board: &mut Board,
)
    requires same { length fields.now ≡ length targets.now }
    requires inside { All (IsFieldOf vaddr size) fields.now }
    requires room { IsOnMemory board.old at size }
    requires end { at + size < 2 ^ 32 }
    ensures { board.new ≡ filled_with (moved_parts vaddr at (field_parts big (target_address modules.now list.now texts.now bases.now) fields.now targets.now)) board.old }
{
    for (k, field) in fields.iter().enumerate() {
        let s = target_address(modules, list, texts, bases, targets[k]);
        put_word(
            big,
            at + (field.place - vaddr),
            field_value(field, s),
            board,
        );
    }
}
