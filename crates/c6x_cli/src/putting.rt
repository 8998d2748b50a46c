ghost use Rattle.std.specs.Prelude.{◌≡◌, ℕ, ◌≤◌, length};
ghost use Rattle.c6x_spec.specs.Memory.{Memory};
ghost use Rattle.c6x_sched.specs.Ended.{AllEnded, AllHaveLived};
ghost use Rattle.c6x_sched.specs.System.{processes_of};
ghost use Rattle.c6x_ports.specs.Sink.{Puts};
ghost use Rattle.c6x_machine.specs.Origin.{Origin};
ghost use Rattle.c6x_plan.specs.declared.limits.TheConstants.{MOST_PROCESSES};
ghost use Rattle.c6x_cli_steps.specs.Policies.{Serves};
ghost use Rattle.c6x_cli_steps.specs.Stages.{Delivers, PutsStages};
ghost use Rattle.c6x_cli_run.specs.Placing.{CanLoad};
ghost use Rattle.c6x_cli_run.specs.Boards.{start_board};
ghost use Rattle.c6x_cli_run.specs.Runs.{AskedOnce, IsReady};
ghost use Rattle.c6x_cli_run.specs.Stages.{asked_of};
ghost use Rattle.c6x_cli.specs.Stages.{gen_stages};
ghost use Rattle.c6x_cli.specs.Sums.{sums_over};

use crate::sums::{cycles_of, exits_of, sums_line};
use c6x_board::Board;
use c6x_cli_run::{Loading, load_plan, run_to_ends};
use c6x_cli_steps::CommitError;
use c6x_ports::{Policy, Sink, SinkError};
use c6x_sched::{Loaded, System};
use std::alloc::Global;

/// The number that a policy begins with.
const SEED: u32 = 1;

/// Loads what a number came to on the board, gives the processes turns of the policy's choice up to the end of each, and
/// puts the line of their sums. All memory is taken first.
pub fn put_generated<O: Sink>(
    alloc: Global,
    number: u32,
    loading: &Loading,
    out: &mut O,
    board: &mut Board,
    policy: &mut Box<dyn Policy>,
) -> Result<(), CommitError>
    requires { CanLoad board.old.base (length board.old.bytes) loading.now }
    ensures delivers { Delivers (gen_stages number loading.now board.old) (O.seen out.old) (O.seen out.new) board.old board.new result }
    ensures serves { Serves (asked_of (chooser policy.old).kind 1 loading.now) (chooser policy.old) (chooser policy.new) result }
{
    let loaded = load_plan(alloc, loading, board)?;
    run_generated(number, loading, loaded, out, board, policy)?;
    Ok(())
}

/// Does what is left to do once the processes are loaded.
fn run_generated<O: Sink>(
    number: u32,
    loading: &Loading,
    loaded: Loaded,
    out: &mut O,
    board: &mut Board,
    policy: &mut Box<dyn Policy>,
) -> Result<(), SinkError>
    requires loads { CanLoad board.old.base (length board.old.bytes) loading.now }
    requires ready { IsReady loading.now board.old loaded }
    ensures puts { (first : Memory) → board.old ≡ start_board loading.now first → PutsStages (gen_stages number loading.now first) (O.seen out.old) (O.seen out.new) first board.new result }
    ensures asked { AskedOnce (asked_of (chooser policy.old).kind 1 loading.now) (chooser policy.old) (chooser policy.new) result }
{
    let system = run_to_ends(loading, loaded, SEED, board, policy);
    let processes = loading.plan.processes.as_slice();
    let modules = loading.plan.modules.as_slice();
    put_sums(
        out,
        number,
        processes.len() as u32,
        modules.len() as u32,
        &system,
    )
}

/// Puts the line of the sums over the processes.
fn put_sums<O: Sink>(
    out: &mut O,
    number: u32,
    processes: u32,
    modules: u32,
    system: &System,
) -> Result<(), SinkError>
    requires same { processes ≡ length (processes_of system.now) }
    requires few { processes ≤ MOST_PROCESSES }
    requires ended { AllEnded (processes_of system.now) }
    ensures { (b : Memory) (s : ℕ → Origin) → AllHaveLived (processes_of system.now) b s
        → Puts (sums_over number processes modules s) (O.seen out.old) (O.seen out.new) result }
{
    let cycles = cycles_of(system, processes);
    let exits = exits_of(system, processes);
    let line = sums_line(number, processes, modules, cycles, exits);
    out.put(line.as_bytes())
}
