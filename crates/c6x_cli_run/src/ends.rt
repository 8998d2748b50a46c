ghost use Rattle.std.specs.Prelude.{◌≡◌, ℕ, length};
ghost use Rattle.c6x_spec.specs.Memory.{Memory};
ghost use Rattle.c6x_machine.specs.Origin.{Origin};
ghost use Rattle.c6x_sched.specs.Ended.{AllEnded, AllHaveLived, HasEnded, HasLived};
ghost use Rattle.c6x_sched.specs.System.{processes_of};
ghost use Rattle.c6x_ports.specs.Sink.{Puts};
ghost use Rattle.c6x_cli_run.specs.Ends.{count_line, ends_text, head_line, life_line, process_line};

use crate::ending::end_line;
use c6x_base::Name;
use c6x_exec::Process;
use c6x_machine::End;
use c6x_plan::ProcessPlan;
use c6x_ports::{Sink, SinkError, put_parts};
use c6x_sched::System;
use itoa::Buffer;

/// Tells how each process of a plan ended, and its output, in the order of the plan.
pub fn put_ends<O: Sink>(
    out: &mut O,
    plans: &[ProcessPlan],
    system: &System,
) -> Result<(), SinkError>
    requires same { length plans.now ≡ length (processes_of system.now) }
    requires ended { AllEnded (processes_of system.now) }
    ensures { (b : Memory) (s : ℕ → Origin) → AllHaveLived (processes_of system.now) b s
        → Puts (ends_text plans.now s) (O.seen out.old) (O.seen out.new) result }
{
    for (number, plan) in plans.iter().enumerate() {
        put_end(out, &plan.name, system.process(number as u32))?;
    }
    Ok(())
}

/// Tells how one process ended.
fn put_end<O: Sink>(out: &mut O, name: &Name, process: &Process) -> Result<(), SinkError>
    requires { HasEnded process.now }
    ensures { (b : Memory) (s : Origin) → HasLived process.now b s
        → Puts (life_line name.now s) (O.seen out.old) (O.seen out.new) result }
{
    let end = process.ended().unwrap();
    put_process(out, name, end, process.cycles(), process.output())
}

/// Tells how a process ended, and its output.
#[tactic(auto, using(c6x_spec::proofs::Puts::takes_then, c6x_spec::proofs::Puts::takes_then_front, c6x_spec::proofs::Puts::front_of_more), unfolding(crate::specs::Ends::process_line))]
fn put_process<O: Sink>(
    out: &mut O,
    process: &Name,
    end: End,
    cycles: u32,
    output: &[u8],
) -> Result<(), SinkError>
    ensures { Puts (process_line process.now end cycles output.now) (O.seen out.old) (O.seen out.new) result }
{
    put_head(out, process, end)?;
    put_counts(out, cycles, output)?;
    Ok(())
}

/// Tells how a process ended.
#[tactic(auto, unfolding(crate::specs::Ends::head_line))]
fn put_head<O: Sink>(out: &mut O, process: &Name, end: End) -> Result<(), SinkError>
    ensures { Puts (head_line process.now end) (O.seen out.old) (O.seen out.new) result }
{
    let line = end_line(end);
    put_parts(
        out,
        &[b"process ", process.as_bytes(), b" ", line.as_bytes()],
    )
}

/// Tells a process's cycles, and its output.
#[tactic(auto, unfolding(crate::specs::Ends::count_line))]
fn put_counts<O: Sink>(out: &mut O, cycles: u32, output: &[u8]) -> Result<(), SinkError>
    ensures { Puts (count_line cycles output.now) (O.seen out.old) (O.seen out.new) result }
{
    let mut cycle_number = Buffer::new();
    let mut output_number = Buffer::new();
    let cycles = cycle_number.format(cycles).as_bytes();
    let len = output_number.format(output.len()).as_bytes();
    put_parts(
        out,
        &[b" cycles ", cycles, b" output ", len, b"\n", output, b"\n"],
    )
}
