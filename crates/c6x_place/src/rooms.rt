ghost use Rattle.std.specs.Prelude.{◌≡◌, ◌≤◌};
ghost use Rattle.c6x_place.specs.Rooms.{data_room, range_of, stack_room, text_room, wanted_text};

use crate::room::Room;
use c6x_elf::Segment;
use c6x_module::Module;

/// A text keeps its fetch packets of 32 bytes.
fn text_room(text: &Segment) -> Room
    ensures { result ≡ text_room text.now }
{
    Room {
        vaddr: text.vaddr,
        step: text.align.max(32),
        size: text.memsz,
    }
}

/// The room of a text, where it is used.
pub fn wanted_text(used: bool, text: &Segment) -> Option<Room>
    ensures { result ≡ wanted_text used text.now }
{
    if used { Some(text_room(text)) } else { None }
}

/// A data range keeps its double words.
fn data_room(range: &Segment) -> Room
    ensures { result ≡ data_room range.now }
{
    Room {
        vaddr: range.vaddr,
        step: range.align.max(8),
        size: range.memsz,
    }
}

/// A stack does too.
pub fn stack_room(size: u32) -> Room
    ensures { result ≡ stack_room size }
{
    Room {
        vaddr: 0,
        step: 8,
        size,
    }
}

/// The data range of the module with this number; an empty one where there is none.
pub fn range_of(modules: &[Module], number: u32) -> Room
    ensures value { result ≡ range_of modules.now number }
    ensures stepping { 1 ≤ result.step }
{
    match modules.get(number as usize) {
        Some(image) => data_room(&image.memory),
        None => stack_room(0),
    }
}
