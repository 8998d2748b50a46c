ghost use Rattle.std.specs.Prelude.{◌≡◌, ◌+◌, ◌*◌, ◌<◌, ◌^◌, length};
ghost use Rattle.c6x_spec.specs.Memory.{IsOnMemory, written};
ghost use Rattle.c6x_load.specs.Values.{slot_word, table_bytes, word_bytes};

use crate::slots::slot_word;
use c6x_board::Board;
use c6x_module::Module;

/// Writes a word, its lowest or its highest byte first.
#[tactic(auto, using(crate::proofs::Tables::length_word))]
pub fn put_word(big: bool, at: u32, value: u32, board: &mut Board)
    requires { IsOnMemory board.old at 4 }
    ensures after { board.new ≡ written board.old at (word_bytes big value) }
    ensures base { board.new.base ≡ board.old.base }
    ensures size { length board.new.bytes ≡ length board.old.bytes }
{
    if big {
        board.copy_in(at, &value.to_be_bytes());
    } else {
        board.write32(at, value);
    }
}

/// Writes a table of so many slots.
pub fn fill_table(
    big: bool,
    modules: &[Module],
    list: &[u32],
    bases: &[u32],
    at: u32,
    slots: u32,
    board: &mut Board,
)
    requires same { length list.now ≡ length bases.now }
    requires room { IsOnMemory board.old at (4 * slots) }
    requires below { at + 4 * slots < 2 ^ 32 }
    ensures { board.new ≡ written board.old at (table_bytes big (slot_word modules.now list.now bases.now) slots) }
{
    for index in 0..slots {
        let value = slot_word(modules, list, bases, index);
        put_word(big, at + 4 * index, value, board);
    }
}
