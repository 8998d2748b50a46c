ghost use Rattle.std.specs.Prelude.{◌≡◌, length};
ghost use Rattle.c6x_base.specs.Search.{AreBelow};
ghost use Rattle.c6x_ports.specs.Sink.{Puts};
ghost use Rattle.c6x_cli_run.specs.Bases.{base_text, placed_text, range_lines, seat_lines, seats_lines, text_lines};
ghost use Rattle.c6x_cli_run.specs.Settled.{HasSeat, HaveSeats, IsSettled};

use crate::lines::{put_data, put_stack, put_text};
use crate::loading::Loading;
use c6x_base::Name;
use c6x_module::Module;
use c6x_modules::Modules;
use c6x_place::{BoundProcess, Seat};
use c6x_plan::ProcessPlan;
use c6x_ports::{Sink, SinkError};

/// Lists where everything stands: the texts in the order of the plan, then for each process its data ranges in search
/// order, and its stack.
#[tactic(auto, using(c6x_spec::proofs::Puts::takes_then, c6x_spec::proofs::Puts::takes_then_front, c6x_spec::proofs::Puts::front_of_more), unfolding(crate::specs::Bases::base_text))]
pub fn put_bases<O: Sink>(out: &mut O, loading: &Loading) -> Result<(), SinkError>
    requires { IsSettled loading.now }
    ensures { Puts (base_text loading.now) (O.seen out.old) (O.seen out.new) result }
{
    let images = loading.modules.as_slice();
    let texts = loading.placement.texts.as_slice();
    let plans = loading.plan.processes.as_slice();
    let bounds = loading.bound.processes.as_slice();
    let seats = loading.placement.seats.as_slice();
    put_texts(out, images, texts)?;
    put_seats(out, &loading.modules, plans, bounds, seats)?;
    Ok(())
}

/// Lists the texts that have a place.
fn put_texts<O: Sink>(
    out: &mut O,
    modules: &[Module],
    texts: &[Option<u32>],
) -> Result<(), SinkError>
    requires { length modules.now ≡ length texts.now }
    ensures { Puts (text_lines modules.now texts.now) (O.seen out.old) (O.seen out.new) result }
{
    for (number, image) in modules.iter().enumerate() {
        put_placed_text(out, image, texts[number])?;
    }
    Ok(())
}

/// Lists one of them, where it has a place.
fn put_placed_text<O: Sink>(out: &mut O, image: &Module, text: Option<u32>) -> Result<(), SinkError>
    ensures { Puts (placed_text image.now text) (O.seen out.old) (O.seen out.new) result }
{
    if let Some(at) = text {
        put_text(out, &image.name, at, image.text.memsz)?;
    }
    Ok(())
}

/// Lists the data ranges and the stacks of the processes.
fn put_seats<O: Sink>(
    out: &mut O,
    modules: &Modules,
    plans: &[ProcessPlan],
    bounds: &[BoundProcess],
    seats: &[Seat],
) -> Result<(), SinkError>
    requires bounds { length plans.now ≡ length bounds.now }
    requires seats { length plans.now ≡ length seats.now }
    requires seated { HaveSeats modules.now bounds.now seats.now }
    ensures { Puts (seats_lines modules.now plans.now bounds.now seats.now) (O.seen out.old) (O.seen out.new) result }
{
    for (process, plan) in plans.iter().enumerate() {
        put_seat(out, modules, plan, &bounds[process], &seats[process])?;
    }
    Ok(())
}

/// Lists those of one process.
#[tactic(auto, using(c6x_spec::proofs::Puts::takes_then, c6x_spec::proofs::Puts::takes_then_front, c6x_spec::proofs::Puts::front_of_more), unfolding(crate::specs::Bases::seat_lines))]
fn put_seat<O: Sink>(
    out: &mut O,
    modules: &Modules,
    plan: &ProcessPlan,
    bound: &BoundProcess,
    seat: &Seat,
) -> Result<(), SinkError>
    requires { HasSeat modules.now bound.now seat.now }
    ensures { Puts (seat_lines modules.now plan.now bound.now seat.now) (O.seen out.old) (O.seen out.new) result }
{
    put_ranges(
        out,
        &plan.name,
        modules,
        bound.modules.as_slice(),
        seat.bases.as_slice(),
    )?;
    put_stack(out, &plan.name, seat.stack, plan.stack)?;
    Ok(())
}

/// Lists the data ranges of a process, in search order.
fn put_ranges<O: Sink>(
    out: &mut O,
    process: &Name,
    modules: &Modules,
    list: &[u32],
    bases: &[u32],
) -> Result<(), SinkError>
    requires same { length list.now ≡ length bases.now }
    requires below { AreBelow (length modules.now) list.now }
    ensures { Puts (range_lines process.now modules.now list.now bases.now) (O.seen out.old) (O.seen out.new) result }
{
    for (position, number) in list.iter().enumerate() {
        let image = modules.view(*number);
        put_data(
            out,
            process,
            &image.name,
            bases[position],
            image.memory.memsz,
        )?;
    }
    Ok(())
}
