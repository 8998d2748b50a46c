ghost use Rattle.std.specs.Prelude.{◌≡◌, slice_get};
ghost use Rattle.std.specs.Option.{option_copied};
ghost use Rattle.c6x_load.specs.Values.{field_value, is_within, member_address, moved, moved_by, shift_of, symbol_moved, target_address, text_at};

use c6x_module::{Field, Module};
use c6x_place::Target;

/// The address of a definition of a module whose text and data range stand at these places.
#[tactic(auto, unfolding(crate::specs::Values::moved))]
pub fn moved(image: &Module, text: u32, range: u32, address: u32) -> u32
    ensures { result ≡ moved image.now text range address }
{
    let by_text = text.wrapping_sub(image.text.vaddr);
    let by_range = range.wrapping_sub(image.memory.vaddr);
    let end = u64::from(image.memory.vaddr) + u64::from(image.memory.memsz);
    if is_within(image.text.vaddr, image.text.memsz, address) {
        address.wrapping_add(by_text)
    } else if is_within(image.memory.vaddr, image.memory.memsz, address) {
        address.wrapping_add(by_range)
    } else if u64::from(address) == end {
        address.wrapping_add(by_range)
    } else {
        address.wrapping_add(by_text)
    }
}

/// An address lies in a range.
fn is_within(lo: u32, len: u32, address: u32) -> bool
    ensures { result ≡ is_within lo len address }
{
    lo <= address && u64::from(address) < u64::from(lo) + u64::from(len)
}

/// Where the text with this number stands.
fn text_at(texts: &[Option<u32>], number: u32) -> u32
    ensures { result ≡ text_at texts.now number }
{
    match texts.get(number as usize) {
        Some(Some(at)) => *at,
        _ => 0,
    }
}

/// The address that a target stands for, in a process with this search list and these data ranges.
#[tactic(auto, unfolding(crate::specs::Values::target_address))]
pub fn target_address(
    modules: &[Module],
    list: &[u32],
    texts: &[Option<u32>],
    bases: &[u32],
    target: Target,
) -> u32
    ensures { result ≡ target_address modules.now list.now texts.now bases.now target }
{
    match target {
        Target::Zero => 0,
        Target::Fixed(value) => value,
        Target::Inside { position, symbol } => {
            let number = number_at(list, position);
            let base = number_at(bases, position);
            member_address(modules, texts, number, base, symbol)
        }
    }
}

/// The number at a position of a list.
fn number_at(list: &[u32], position: u32) -> Option<u32>
    ensures { result ≡ slice_get list.now position }
{
    match list.get(position as usize) {
        Some(number) => Some(*number),
        None => None,
    }
}

/// Where a symbol of a member stands.
fn member_address(
    modules: &[Module],
    texts: &[Option<u32>],
    number: Option<u32>,
    base: Option<u32>,
    symbol: u32,
) -> u32
    ensures { result ≡ member_address modules.now texts.now number base symbol }
{
    match number {
        None => 0,
        Some(number) => match base {
            None => 0,
            Some(base) => symbol_moved(modules, number, text_at(texts, number), base, symbol),
        },
    }
}

/// Where a symbol of a module stands.
fn symbol_moved(modules: &[Module], number: u32, text: u32, range: u32, symbol: u32) -> u32
    ensures { result ≡ symbol_moved (slice_get modules.now number) text range symbol }
{
    match modules.get(number as usize) {
        None => 0,
        Some(image) => match image.symbols.as_slice().get(symbol as usize) {
            None => 0,
            Some(held) => moved(image, text, range, held.value),
        },
    }
}

/// What a field holds whose target has this address.
#[tactic(auto, unfolding(crate::specs::Values::field_value))]
pub fn field_value(field: &Field, s: u32) -> u32
    ensures { result ≡ field_value field.now s }
{
    if field.slot_kind {
        s
    } else {
        s.wrapping_add(field.addend.cast_unsigned())
    }
}

/// Where the table of a module stands whose data range stands at `base`.
pub fn table_moved(image: &Module, base: u32) -> u32
    ensures { result ≡ moved_by (shift_of base image.now.memory.vaddr) image.now.table }
{
    image
        .table
        .wrapping_add(base.wrapping_sub(image.memory.vaddr))
}
