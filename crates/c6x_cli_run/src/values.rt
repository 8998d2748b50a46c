ghost use Rattle.std.specs.Prelude.{◌≡◌, ◌<◌, All, length};
ghost use Rattle.c6x_spec.specs.Memory.{CanStart, IsOnMemory};
ghost use Rattle.c6x_module.specs.Valid.{IsField, IsValid};
ghost use Rattle.c6x_load.specs.ReadBack.{AreSeatsReadBack};
ghost use Rattle.c6x_ports.specs.Sink.{Puts};
ghost use Rattle.c6x_cli_run.specs.Placing.{CanLoad};
ghost use Rattle.c6x_cli_run.specs.Held.{AreRangesOn, AreSeatsOn, held_field, held_fields, held_members, held_module, held_processes, held_slot};
ghost use Rattle.c6x_cli_run.specs.Lines.{lines_below};
ghost use Rattle.c6x_cli_run.specs.Settled.{HasSeat, HaveSeats};
ghost use Rattle.c6x_cli_run.specs.Values.{value_text};

use crate::lines::{put_field, put_slot};
use crate::loading::Loading;
use c6x_base::Name;
use c6x_board::Board;
use c6x_module::{Field, Module};
use c6x_modules::Modules;
use c6x_place::{BoundProcess, Seat};
use c6x_plan::ProcessPlan;
use c6x_ports::{Sink, SinkError};

/// Lists what every slot and every field of the processes holds, read back from the board: by process and member of its
/// search list, the slots, then the fields in the order of the module's entries.
pub fn put_values<O: Sink>(out: &mut O, loading: &Loading, board: &Board) -> Result<(), SinkError>
    requires loads { CanLoad board.now.base (length board.now.bytes) loading.now }
    requires read_back { AreSeatsReadBack board.now loading.now.modules loading.now.placement.texts loading.now.bound.processes loading.now.placement.seats }
    ensures { Puts (value_text loading.now) (O.seen out.old) (O.seen out.new) result }
{
    let _ = loading.modules.len();
    let plans = loading.plan.processes.as_slice();
    let bounds = loading.bound.processes.as_slice();
    let seats = loading.placement.seats.as_slice();
    put_processes(out, &loading.modules, plans, bounds, seats, board)
}

/// Lists what the slots and fields of some processes hold.
fn put_processes<O: Sink>(
    out: &mut O,
    modules: &Modules,
    plans: &[ProcessPlan],
    bounds: &[BoundProcess],
    seats: &[Seat],
    board: &Board,
) -> Result<(), SinkError>
    requires bounds { length plans.now ≡ length bounds.now }
    requires seats { length plans.now ≡ length seats.now }
    requires seated { HaveSeats modules.now bounds.now seats.now }
    requires room { AreSeatsOn board.now modules.now bounds.now seats.now }
    requires memory { CanStart board.now.base (length board.now.bytes) }
    ensures { Puts (held_processes board.now modules.now plans.now bounds.now seats.now) (O.seen out.old) (O.seen out.new) result }
{
    for (process, plan) in plans.iter().enumerate() {
        put_process(out, modules, plan, &bounds[process], &seats[process], board)?;
    }
    Ok(())
}

/// Lists those of one process.
fn put_process<O: Sink>(
    out: &mut O,
    modules: &Modules,
    plan: &ProcessPlan,
    bound: &BoundProcess,
    seat: &Seat,
    board: &Board,
) -> Result<(), SinkError>
    requires seated { HasSeat modules.now bound.now seat.now }
    requires room { AreRangesOn board.now modules.now bound.now.modules seat.now.bases }
    requires memory { CanStart board.now.base (length board.now.bytes) }
    ensures { Puts (held_members board.now plan.now.name modules.now bound.now.modules seat.now.bases) (O.seen out.old) (O.seen out.new) result }
{
    put_members(
        out,
        &plan.name,
        modules,
        bound.modules.as_slice(),
        seat.bases.as_slice(),
        board,
    )
}

/// Lists those of the members of a search list, whose data ranges stand at these places.
fn put_members<O: Sink>(
    out: &mut O,
    process: &Name,
    modules: &Modules,
    list: &[u32],
    bases: &[u32],
    board: &Board,
) -> Result<(), SinkError>
    requires same { length list.now ≡ length bases.now }
    requires room { AreRangesOn board.now modules.now list.now bases.now }
    requires memory { CanStart board.now.base (length board.now.bytes) }
    ensures { Puts (held_members board.now process.now modules.now list.now bases.now) (O.seen out.old) (O.seen out.new) result }
{
    for (position, number) in list.iter().enumerate() {
        let image = modules.view(*number);
        put_module(out, process, image, bases[position], board)?;
    }
    Ok(())
}

/// Lists those of one module, whose data range stands at `base`.
#[tactic(auto, using(c6x_spec::proofs::Puts::takes_then, c6x_spec::proofs::Puts::takes_then_front, c6x_spec::proofs::Puts::front_of_more), unfolding(crate::specs::Held::held_module))]
fn put_module<O: Sink>(
    out: &mut O,
    process: &Name,
    image: &Module,
    base: u32,
    board: &Board,
) -> Result<(), SinkError>
    requires valid { IsValid image.now }
    requires room { IsOnMemory board.now base image.now.memory.memsz }
    requires memory { CanStart board.now.base (length board.now.bytes) }
    ensures { Puts (held_module board.now process.now image.now base) (O.seen out.old) (O.seen out.new) result }
{
    put_slots(out, process, image, base, board)?;
    put_fields(out, process, image, base, board, image.fields.as_slice())?;
    Ok(())
}

/// Lists the slots of its table.
#[tactic(auto, using(crate::proofs::SlotLines::takes_line, crate::proofs::SlotLines::front_of_lines))]
fn put_slots<O: Sink>(
    out: &mut O,
    process: &Name,
    image: &Module,
    base: u32,
    board: &Board,
) -> Result<(), SinkError>
    requires valid { IsValid image.now }
    requires room { IsOnMemory board.now base image.now.memory.memsz }
    requires memory { CanStart board.now.base (length board.now.bytes) }
    ensures { Puts (lines_below (held_slot board.now process.now image.now base) image.now.slots) (O.seen out.old) (O.seen out.new) result }
{
    for index in 0..image.slots {
        put_held_slot(out, process, image, base, board, index)?;
    }
    Ok(())
}

/// Lists one slot.
#[tactic(auto, unfolding(crate::specs::Held::held_slot))]
fn put_held_slot<O: Sink>(
    out: &mut O,
    process: &Name,
    image: &Module,
    base: u32,
    board: &Board,
    index: u32,
) -> Result<(), SinkError>
    requires inside { index < image.now.slots }
    requires valid { IsValid image.now }
    requires room { IsOnMemory board.now base image.now.memory.memsz }
    requires memory { CanStart board.now.base (length board.now.bytes) }
    ensures { Puts (held_slot board.now process.now image.now base index) (O.seen out.old) (O.seen out.new) result }
{
    let at = base + (image.table - image.memory.vaddr) + 4 * index;
    put_slot(out, process, &image.name, index, board.read32(at))
}

/// Lists these of its fields.
fn put_fields<O: Sink>(
    out: &mut O,
    process: &Name,
    image: &Module,
    base: u32,
    board: &Board,
    fields: &[Field],
) -> Result<(), SinkError>
    requires fields { All (IsField image.now) fields.now }
    requires room { IsOnMemory board.now base image.now.memory.memsz }
    requires memory { CanStart board.now.base (length board.now.bytes) }
    ensures { Puts (held_fields board.now process.now image.now base fields.now) (O.seen out.old) (O.seen out.new) result }
{
    for field in fields {
        put_held_field(out, process, image, base, board, field)?;
    }
    Ok(())
}

/// Lists one field.
#[tactic(auto, unfolding(crate::specs::Held::held_field))]
fn put_held_field<O: Sink>(
    out: &mut O,
    process: &Name,
    image: &Module,
    base: u32,
    board: &Board,
    field: &Field,
) -> Result<(), SinkError>
    requires field { IsField image.now field.now }
    requires room { IsOnMemory board.now base image.now.memory.memsz }
    requires memory { CanStart board.now.base (length board.now.bytes) }
    ensures { Puts (held_field board.now process.now image.now base field.now) (O.seen out.old) (O.seen out.new) result }
{
    let at = base + (field.place - image.memory.vaddr);
    put_field(out, process, &image.name, at, board.read32(at))
}
