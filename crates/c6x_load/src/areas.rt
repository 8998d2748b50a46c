ghost use Rattle.std.specs.Prelude.{◌≡◌, ◌+◌, ◌++◌, ◌≤◌, IfOk, OnOk, length, slice_get};
ghost use Rattle.c6x_load.specs.Values.{text_at};
ghost use Rattle.c6x_load.specs.Areas.{AreBelow, range_areas, range_size, readable, seat_areas, text_areas, text_size, writable};

use c6x_access::{Area, Map};
use c6x_modules::Modules;
use c6x_place::Seat;
use std::alloc::{AllocError, Global};

/// The areas of a process with this search list: its texts, its data ranges, its stack.
#[tactic(auto, unfolding(crate::specs::Areas::seat_areas))]
pub fn map_of(
    alloc: Global,
    modules: &Modules,
    stack: u32,
    list: &[u32],
    texts: &[Option<u32>],
    seat: &Seat,
) -> Result<Map, AllocError>
    requires seated { length list.now ≡ length seat.now.bases }
    requires texts { AreBelow (text_areas modules.now texts.now list.now) }
    requires ranges { AreBelow (range_areas modules.now list.now seat.now.bases) }
    requires stack { seat.now.stack + stack ≤ 4294967295 }
    ensures { IfOk result (λ map. map ≡ seat_areas modules.now stack list.now texts.now seat.now) }
{
    let mut map = Map::new(alloc);
    add_texts(&mut map, modules, list, texts)?;
    add_ranges(&mut map, modules, list, seat.bases.as_slice())?;
    map.add(writable(seat.stack, stack))?;
    Ok(map)
}

/// The texts of a search list.
#[tactic(auto, using(crate::proofs::ProcessWalks::texts_more))]
fn add_texts(
    map: &mut Map,
    modules: &Modules,
    list: &[u32],
    texts: &[Option<u32>],
) -> Result<(), AllocError>
    requires { AreBelow (text_areas modules.now texts.now list.now) }
    ensures { OnOk result (map.new ≡ map.old ++ text_areas modules.now texts.now list.now) }
{
    for number in list {
        let at = text_at(texts, *number);
        map.add(readable(at, text_size(modules, *number)))?;
    }
    Ok(())
}

/// The data ranges of a search list.
#[tactic(auto, using(crate::proofs::ProcessWalks::ranges_more))]
fn add_ranges(
    map: &mut Map,
    modules: &Modules,
    list: &[u32],
    bases: &[u32],
) -> Result<(), AllocError>
    requires seated { length list.now ≡ length bases.now }
    requires below { AreBelow (range_areas modules.now list.now bases.now) }
    ensures { OnOk result (map.new ≡ map.old ++ range_areas modules.now list.now bases.now) }
{
    for (position, number) in list.iter().enumerate() {
        map.add(writable(bases[position], range_size(modules, *number)))?;
    }
    Ok(())
}

/// A range that may be read and run.
fn readable(lo: u32, len: u32) -> Area
    ensures { result ≡ readable lo len }
{
    Area {
        lo,
        len,
        read: true,
        write: false,
        run: true,
    }
}

/// A range that may be read and written.
fn writable(lo: u32, len: u32) -> Area
    ensures { result ≡ writable lo len }
{
    Area {
        lo,
        len,
        read: true,
        write: true,
        run: false,
    }
}

/// Where the text with this number stands.
fn text_at(texts: &[Option<u32>], number: u32) -> u32
    ensures { result ≡ text_at texts.now number }
{
    match texts.get(number as usize) {
        Some(Some(at)) => *at,
        _ => 0,
    }
}

/// The size of the text of the module with this number.
fn text_size(modules: &Modules, number: u32) -> u32
    ensures { result ≡ text_size (slice_get modules.now number) }
{
    match modules.as_slice().get(number as usize) {
        Some(image) => image.text.memsz,
        None => 0,
    }
}

/// The size of its data range.
fn range_size(modules: &Modules, number: u32) -> u32
    ensures { result ≡ range_size (slice_get modules.now number) }
{
    match modules.as_slice().get(number as usize) {
        Some(image) => image.memory.memsz,
        None => 0,
    }
}
