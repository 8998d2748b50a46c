ghost use Rattle.std.specs.Prelude.{◌≡◌, length, slice_get};
ghost use Rattle.c6x_load.specs.Values.{slot_of, slot_word};

use crate::address::table_moved;
use c6x_module::Module;

/// The slot of an index in a process with this search list and these data ranges.
#[tactic(auto, using(crate::proofs::FillWalks::slot_more))]
pub fn slot_word(modules: &[Module], list: &[u32], bases: &[u32], index: u32) -> u32
    requires { length list.now ≡ length bases.now }
    ensures { result ≡ slot_word modules.now list.now bases.now index }
{
    for (position, number) in list.iter().enumerate() {
        if let Some(word) = slot_of(modules, *number, bases[position], index) {
            return word;
        }
    }
    0
}

/// The address of the table of the module with this number, if it has the index.
fn slot_of(modules: &[Module], number: u32, base: u32, index: u32) -> Option<u32>
    ensures { result ≡ slot_of (slice_get modules.now number) base index }
{
    match modules.get(number as usize) {
        None => None,
        Some(image) => {
            if image.index == index {
                Some(table_moved(image, base))
            } else {
                None
            }
        }
    }
}
