ghost use Rattle.std.specs.Prelude.{◌≡◌, ◌+◌, ◌^◌, ◌<◌, ◌≤◌, [], length, IfOk};
ghost use Rattle.c6x_spec.specs.Memory.{CanStart};
ghost use Rattle.c6x_place.specs.Places.{AreValid, Placed};
ghost use Rattle.c6x_place.specs.Plans.{IsPlacement, one_seat, placement_of, plan_places, plan_rooms, seats_from};

use crate::bound::Bound;
use crate::bound_process::BoundProcess;
use crate::place_error::PlaceError;
use crate::placement::Placement;
use crate::places::{place_seat, place_texts};
use crate::seat::Seat;
use crate::used::used_texts;
use c6x_base::Row;
use c6x_modules::Modules;
use c6x_plan::ProcessPlan;
use std::alloc::Global;

/// Where the ranges of the processes stand in the memory of `len` bytes from `base` on, in which order and at which steps
/// `specs/Plans.antt` says. `NoRoom` comes exactly where a range would end past the memory.
pub fn place(
    alloc: Global,
    modules: &Modules,
    processes: &[ProcessPlan],
    bound: &Bound,
    base: u32,
    len: u32,
) -> Result<Placement, PlaceError>
    requires same { length bound.now.processes ≡ length processes.now }
    requires memory { CanStart base len }
    ensures value { Placed (λ placement. placement) result (placement_of modules.now processes.now bound.now.processes base (base + len)) }
    ensures stands { IfOk result (IsPlacement modules.now processes.now bound.now.processes base (base + len)) }
    ensures valid { IfOk result (λ placement. AreValid base (base + len) (plan_rooms modules.now processes.now bound.now.processes) (plan_places placement)) }
{
    placed(alloc, modules, processes, bound, base, len)
}

/// The texts that are used, and then the seats.
#[tactic(auto, unfolding(crate::specs::Plans::placement_of))]
fn placed(
    alloc: Global,
    modules: &Modules,
    processes: &[ProcessPlan],
    bound: &Bound,
    base: u32,
    len: u32,
) -> Result<Placement, PlaceError>
    requires same { length bound.now.processes ≡ length processes.now }
    requires memory { CanStart base len }
    ensures { Placed (λ placement. placement) result (placement_of modules.now processes.now bound.now.processes base (base + len)) }
{
    let end = u64::from(base) + u64::from(len);
    let bounds = bound.processes.as_slice();
    let used = used_texts(alloc, modules, bounds)?;
    let (texts, behind) = place_texts(alloc, modules.as_slice(), &used, u64::from(base), end)?;
    let (seats, _last) = place_seats(alloc, modules, processes, bounds, behind, end)?;
    Ok(Placement {
        texts: Row::of(texts),
        seats: Row::of(seats),
    })
}

/// The seats of the processes, and the cursor behind them.
#[tactic(auto, using(crate::proofs::Walks::seats_more))]
fn place_seats(
    alloc: Global,
    modules: &Modules,
    processes: &[ProcessPlan],
    bounds: &[BoundProcess],
    cursor: u64,
    end: u64,
) -> Result<(Vec<Seat>, u64), PlaceError>
    requires same { length bounds.now ≡ length processes.now }
    requires low { cursor ≤ end }
    requires memory { end < 2 ^ 32 }
    ensures value { Placed (λ made. (made.0.items, made.1)) result (seats_from modules.now [] cursor end processes.now bounds.now) }
    ensures below { IfOk result (λ made. made.1 ≤ end) }
{
    let mut seats = Vec::new(alloc);
    let mut now = cursor;
    for (process, plan) in processes.iter().enumerate() {
        let list = bounds[process].modules.as_slice();
        now = put_seat(alloc, &mut seats, modules, list, plan.stack, now, end)?;
    }
    Ok((seats, now))
}

/// The seat of one process.
#[tactic(auto, unfolding(crate::specs::Plans::one_seat))]
fn put_seat(
    alloc: Global,
    seats: &mut Vec<Seat>,
    modules: &Modules,
    list: &[u32],
    stack: u32,
    cursor: u64,
    end: u64,
) -> Result<u64, PlaceError>
    requires low { cursor ≤ end }
    requires memory { end < 2 ^ 32 }
    ensures value { Placed (λ next. (seats.new.items, next)) result (one_seat seats.old.items modules.now cursor end list.now stack) }
    ensures below { IfOk result (λ next. next ≤ end) }
{
    let (seat, behind) = place_seat(alloc, modules.as_slice(), list, stack, cursor, end)?;
    seats.push(seat)?;
    Ok(behind)
}
