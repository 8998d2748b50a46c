ghost use Rattle.std.specs.Prelude.{◌≡◌, ◌+◌, ◌^◌, ◌<◌, ◌≤◌, [], length, IfOk, IfSome};
ghost use Rattle.c6x_place.specs.Places.{Placed, bases_from, one_base, one_text, room_at, seat_of, texts_from};
ghost use Rattle.c6x_place.specs.Rooms.{wanted_text};

use crate::place_error::PlaceError;
use crate::room::Room;
use crate::rooms::{range_of, stack_room, wanted_text};
use crate::seat::Seat;
use c6x_base::{Row, least_place};
use c6x_module::Module;
use std::alloc::Global;

/// The place of a range behind the cursor, where it ends in the memory.
#[tactic(auto, unfolding(crate::specs::Places::room_at))]
fn room_at(cursor: u64, end: u64, room: Room) -> Result<u32, PlaceError>
    requires stepping { 1 ≤ room.step }
    requires low { cursor < 2 ^ 33 }
    requires memory { end < 2 ^ 32 }
    ensures value { Placed (λ at. at) result (room_at cursor end room) }
    ensures below { IfOk result (λ at. at + room.size ≤ end) }
{
    let at = least_place(cursor, room.vaddr, room.step);
    if at + u64::from(room.size) <= end {
        Ok(at as u32)
    } else {
        Err(PlaceError::NoRoom)
    }
}

/// The texts that are used, in the order of the plan, and the cursor behind them.
#[tactic(auto, using(crate::proofs::SeatWalks::texts_more))]
pub fn place_texts(
    alloc: Global,
    modules: &[Module],
    used: &[bool],
    base: u64,
    end: u64,
) -> Result<(Vec<Option<u32>>, u64), PlaceError>
    requires same { length modules.now ≡ length used.now }
    requires low { base ≤ end }
    requires memory { end < 2 ^ 32 }
    ensures value { Placed (λ made. (made.0.items, made.1)) result (texts_from [] base end modules.now used.now) }
    ensures below { IfOk result (λ made. made.1 ≤ end) }
{
    let mut texts = Vec::new(alloc);
    let mut cursor = base;
    for (number, image) in modules.iter().enumerate() {
        let room = wanted_text(used[number], &image.text);
        cursor = place_text(&mut texts, cursor, end, room)?;
    }
    Ok((texts, cursor))
}

/// One text, where it is used.
#[tactic(auto, unfolding(crate::specs::Places::one_text))]
fn place_text(
    texts: &mut Vec<Option<u32>>,
    cursor: u64,
    end: u64,
    room: Option<Room>,
) -> Result<u64, PlaceError>
    requires stepping { IfSome room (λ room. 1 ≤ room.step) }
    requires low { cursor ≤ end }
    requires memory { end < 2 ^ 32 }
    ensures value { Placed (λ next. (texts.new.items, next)) result (one_text texts.old.items cursor end room) }
    ensures below { IfOk result (λ next. next ≤ end) }
{
    match room {
        None => {
            texts.push(None)?;
            Ok(cursor)
        }
        Some(room) => {
            let at = room_at(cursor, end, room)?;
            texts.push(Some(at))?;
            Ok(u64::from(at) + u64::from(room.size))
        }
    }
}

/// The data ranges of a search list, and the cursor behind them.
#[tactic(auto, using(crate::proofs::SeatWalks::bases_more))]
fn place_bases(
    alloc: Global,
    modules: &[Module],
    list: &[u32],
    cursor: u64,
    end: u64,
) -> Result<(Vec<u32>, u64), PlaceError>
    requires low { cursor ≤ end }
    requires memory { end < 2 ^ 32 }
    ensures value { Placed (λ made. (made.0.items, made.1)) result (bases_from modules.now [] cursor end list.now) }
    ensures below { IfOk result (λ made. made.1 ≤ end) }
{
    let mut bases = Vec::new(alloc);
    let mut now = cursor;
    for number in list {
        let room = range_of(modules, *number);
        now = place_base(&mut bases, now, end, room)?;
    }
    Ok((bases, now))
}

/// One data range.
#[tactic(auto, unfolding(crate::specs::Places::one_base))]
fn place_base(bases: &mut Vec<u32>, cursor: u64, end: u64, room: Room) -> Result<u64, PlaceError>
    requires stepping { 1 ≤ room.step }
    requires low { cursor ≤ end }
    requires memory { end < 2 ^ 32 }
    ensures value { Placed (λ next. (bases.new.items, next)) result (one_base bases.old.items cursor end room) }
    ensures below { IfOk result (λ next. next ≤ end) }
{
    let at = room_at(cursor, end, room)?;
    bases.push(at)?;
    Ok(u64::from(at) + u64::from(room.size))
}

/// The data ranges and the stack of a process, and the cursor behind them.
#[tactic(auto, unfolding(crate::specs::Places::seat_of))]
pub fn place_seat(
    alloc: Global,
    modules: &[Module],
    list: &[u32],
    stack: u32,
    cursor: u64,
    end: u64,
) -> Result<(Seat, u64), PlaceError>
    requires low { cursor ≤ end }
    requires memory { end < 2 ^ 32 }
    ensures value { Placed (λ made. (made.0, made.1)) result (seat_of modules.now cursor end list.now stack) }
    ensures below { IfOk result (λ made. made.1 ≤ end) }
{
    let (bases, behind) = place_bases(alloc, modules, list, cursor, end)?;
    let at = room_at(behind, end, stack_room(stack))?;
    let seat = Seat {
        bases: Row::of(bases),
        stack: at,
    };
    Ok((seat, u64::from(at) + u64::from(stack)))
}
