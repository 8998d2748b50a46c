ghost use Rattle.std.specs.Prelude.{◌≡◌, ◌+◌, ◌<◌, ◌^◌, length};
ghost use Rattle.c6x_spec.specs.Memory.{IsOnMemory, written};
ghost use Rattle.c6x_module.specs.Valid.{IsLoadable, IsValid};
ghost use Rattle.c6x_load.specs.Values.{data_image, filled, slot_word, target_address};

use crate::fields::fill_fields;
use crate::table::fill_table;
use c6x_board::Board;
use c6x_elf::Segment;
use c6x_module::Module;
use c6x_place::Target;

/// Writes a segment: its file bytes, then zeros.
#[tactic(auto, using(c6x_spec::proofs::Writes::written_behind), unfolding(crate::specs::Values::filled))]
pub fn fill_segment(segment: &Segment, at: u32, board: &mut Board)
    requires loadable { IsLoadable segment.now }
    requires room { IsOnMemory board.old at segment.now.memsz }
    requires below { at + segment.now.memsz < 2 ^ 32 }
    ensures { board.new ≡ written board.old at (filled segment.now) }
{
    let bytes = segment.bytes.as_bytes();
    let len = bytes.len() as u32;
    board.copy_in(at, bytes);
    board.zero(at + len, segment.memsz - len);
}

/// Writes the data range of a module with its table and its fields, in a process with this search list.
pub fn fill_data(
    big: bool,
    modules: &[Module],
    list: &[u32],
    texts: &[Option<u32>],
    bases: &[u32],
    image: &Module,
    targets: &[Target],
    at: u32,
    board: &mut Board,
)
    requires valid { IsValid image.now }
    requires seated { length list.now ≡ length bases.now }
    requires same { length image.now.fields ≡ length targets.now }
    requires room { IsOnMemory board.old at image.now.memory.memsz }
    requires end { at + image.now.memory.memsz < 2 ^ 32 }
    ensures { board.new ≡ written board.old at (data_image big image.now (slot_word modules.now list.now bases.now) (target_address modules.now list.now texts.now bases.now) targets.now).bytes }
{
    let range = &image.memory;
    fill_segment(range, at, board);
    let table = at + (image.table - range.vaddr);
    fill_table(big, modules, list, bases, table, image.slots, board);
    fill_fields(
        big,
        modules,
        list,
        texts,
        bases,
        image.fields.as_slice(),
        targets,
        range.vaddr,
        range.memsz,
        at,
        board,
    );
}
