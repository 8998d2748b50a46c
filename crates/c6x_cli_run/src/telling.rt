ghost use Rattle.std.specs.Prelude.{◌≡◌, ◌≤◌, IfOk, OnErr, length};
ghost use Rattle.c6x_spec.specs.Files.{Rose};
ghost use Rattle.c6x_spec.specs.Memory.{Memory};
ghost use Rattle.c6x_cli_steps.specs.Policies.{Serves};
ghost use Rattle.c6x_cli_run.specs.Tellings.{PutsTelling, Tells};
ghost use Rattle.c6x_cli_run.specs.Placing.{CanLoad};
ghost use Rattle.c6x_cli_run.specs.Boards.{game_with, start_board};
ghost use Rattle.c6x_cli_run.specs.Runs.{AskedOnce, HasToldRun, IsReady, IsRunCut};
ghost use Rattle.c6x_cli_run.specs.Stages.{asked_of, told_run};

use crate::bases::put_bases;
use crate::ends::put_ends;
use crate::loading::Loading;
use crate::running::begin;
use crate::starting::load_plan;
use crate::turn_lines::play_turns;
use c6x_board::Board;
use c6x_cli_steps::CommitError;
use c6x_ports::{Policy, Sink, SinkError};
use c6x_sched::{Loaded, System};
use std::alloc::Global;

/// Loads the plan's processes, lists where everything stands, gives them turns with a line behind each, and tells how they
/// ended.
pub(crate) fn put_told_run<O: Sink>(
    alloc: Global,
    loading: &Loading,
    seed: u32,
    out: &mut O,
    board: &mut Board,
    policy: &mut Box<dyn Policy>,
) -> Result<(), CommitError>
    requires { CanLoad board.old.base (length board.old.bytes) loading.now }
    ensures tells { Tells (told_run (chooser policy.old).kind seed loading.now board.old) (O.seen out.old) (O.seen out.new) board.old board.new result }
    ensures serves { Serves (asked_of (chooser policy.old).kind seed loading.now) (chooser policy.old) (chooser policy.new) result }
{
    let loaded = load_plan(alloc, loading, board)?;
    tell_loaded(loading, loaded, seed, out, board, policy)?;
    Ok(())
}

/// Does what is left to do once the processes are loaded.
fn tell_loaded<O: Sink>(
    loading: &Loading,
    loaded: Loaded,
    seed: u32,
    out: &mut O,
    board: &mut Board,
    policy: &mut Box<dyn Policy>,
) -> Result<(), SinkError>
    requires loads { CanLoad board.old.base (length board.old.bytes) loading.now }
    requires ready { IsReady loading.now board.old loaded }
    ensures puts { (first : Memory) → board.old ≡ start_board loading.now first
        → PutsTelling (told_run (chooser policy.old).kind seed loading.now first) (O.seen out.old) (O.seen out.new) first board.new result }
    ensures asked { AskedOnce (asked_of (chooser policy.old).kind seed loading.now) (chooser policy.old) (chooser policy.new) result }
{
    put_bases(out, loading)?;
    let system = tell_to_ends(loading, loaded, seed, out, board, policy)?;
    put_ends(out, loading.plan.processes.as_slice(), &system)
}

/// Begins the policy, and gives the processes turns of its choice up to the end of each, with a line behind each turn.
fn tell_to_ends<O: Sink>(
    loading: &Loading,
    loaded: Loaded,
    seed: u32,
    out: &mut O,
    board: &mut Board,
    policy: &mut Box<dyn Policy>,
) -> Result<System, SinkError>
    requires loads { CanLoad board.old.base (length board.old.bytes) loading.now }
    requires ready { IsReady loading.now board.old loaded }
    ensures told { IfOk result (λ system. HasToldRun loading.now (game_with (chooser policy.old).kind seed loading.now) system board.old board.new (O.seen out.old).bytes (O.seen out.new).bytes) }
    ensures cut { OnErr result (IsRunCut loading.now (game_with (chooser policy.old).kind seed loading.now) board.old board.new (O.seen out.old).bytes (O.seen out.new).bytes) }
    ensures asked { AskedOnce (asked_of (chooser policy.old).kind seed loading.now) (chooser policy.old) (chooser policy.new) result }
    ensures failed { OnErr result (Rose (O.seen out.old).faults (O.seen out.new).faults) }
    ensures kept { (O.seen out.old).faults ≤ (O.seen out.new).faults }
{
    let processes = loading.plan.processes.as_slice();
    begin(policy, processes.len() as u32, loading.plan.quantum, seed);
    let mut system = System::of(loaded, loading.plan.quantum);
    play_turns(&mut system, policy, processes, out, board)?;
    Ok(system)
}
