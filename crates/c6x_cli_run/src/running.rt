ghost use Rattle.std.specs.Prelude.{◌≡◌, ℕ, ◌≤◌, length};
ghost use Rattle.c6x_spec.specs.Memory.{Memory};
ghost use Rattle.c6x_ports.specs.Chooser.{Begins};
ghost use Rattle.c6x_ports.specs.declared.limits.TheConstants.{MOST_QUANTUM};
ghost use Rattle.c6x_sched.specs.Ended.{AllEnded, AllHaveLived};
ghost use Rattle.c6x_sched.specs.System.{processes_of};
ghost use Rattle.c6x_machine.specs.Machine.{life};
ghost use Rattle.c6x_cli_steps.specs.Policies.{HasAnswered, Serves};
ghost use Rattle.c6x_cli_steps.specs.Stages.{Delivers, PutsStages};
ghost use Rattle.c6x_cli_run.specs.TurnBoards.{boards_at};
ghost use Rattle.c6x_cli_run.specs.Placing.{CanLoad};
ghost use Rattle.c6x_cli_run.specs.Boards.{count_of, start_board, starts_of};
ghost use Rattle.c6x_cli_run.specs.Runs.{AskedOnce, IsReady};
ghost use Rattle.c6x_cli_run.specs.Tellings.{Tells};
ghost use Rattle.c6x_cli_run.specs.Stages.{asked_of, run_stages, run_telling};

use crate::bases::put_bases;
use crate::ends::put_ends;
use crate::loading::Loading;
use crate::starting::load_plan;
use crate::telling::put_told_run;
use c6x_board::Board;
use c6x_cli_steps::CommitError;
use c6x_ports::{Policy, Sink, SinkError};
use c6x_sched::{Loaded, System};
use std::alloc::Global;

/// Loads the plan's processes on the board, lists where everything stands, gives the processes turns of the policy's
/// choice up to the end of each, and tells how they ended; with `turns` also each turn, behind it. All memory is taken
/// first. Where the lines on where everything stands, or that of a turn, could not be put, nothing further runs.
#[tactic(auto, using(crate::proofs::Told::told_as))]
pub fn put_run<O: Sink>(
    alloc: Global,
    loading: &Loading,
    seed: u32,
    turns: bool,
    out: &mut O,
    board: &mut Board,
    policy: &mut Box<dyn Policy>,
) -> Result<(), CommitError>
    requires { CanLoad board.old.base (length board.old.bytes) loading.now }
    ensures tells { Tells (run_telling turns (chooser policy.old).kind seed loading.now board.old) (O.seen out.old) (O.seen out.new) board.old board.new result }
    ensures serves { Serves (asked_of (chooser policy.old).kind seed loading.now) (chooser policy.old) (chooser policy.new) result }
{
    if turns {
        put_told_run(alloc, loading, seed, out, board, policy)
    } else {
        put_untold_run(alloc, loading, seed, out, board, policy)
    }
}

/// Does so with no turn told.
fn put_untold_run<O: Sink>(
    alloc: Global,
    loading: &Loading,
    seed: u32,
    out: &mut O,
    board: &mut Board,
    policy: &mut Box<dyn Policy>,
) -> Result<(), CommitError>
    requires { CanLoad board.old.base (length board.old.bytes) loading.now }
    ensures delivers { Delivers (run_stages loading.now board.old) (O.seen out.old) (O.seen out.new) board.old board.new result }
    ensures serves { Serves (asked_of (chooser policy.old).kind seed loading.now) (chooser policy.old) (chooser policy.new) result }
{
    let loaded = load_plan(alloc, loading, board)?;
    run_loaded(loading, loaded, seed, out, board, policy)?;
    Ok(())
}

/// Does what is left to do once the processes are loaded.
fn run_loaded<O: Sink>(
    loading: &Loading,
    loaded: Loaded,
    seed: u32,
    out: &mut O,
    board: &mut Board,
    policy: &mut Box<dyn Policy>,
) -> Result<(), SinkError>
    requires loads { CanLoad board.old.base (length board.old.bytes) loading.now }
    requires ready { IsReady loading.now board.old loaded }
    ensures puts { (first : Memory) → board.old ≡ start_board loading.now first → PutsStages (run_stages loading.now first) (O.seen out.old) (O.seen out.new) first board.new result }
    ensures asked { AskedOnce (asked_of (chooser policy.old).kind seed loading.now) (chooser policy.old) (chooser policy.new) result }
{
    put_bases(out, loading)?;
    let system = run_to_ends(loading, loaded, seed, board, policy);
    put_ends(out, loading.plan.processes.as_slice(), &system)
}

/// Begins the policy, and gives the processes turns of its choice up to the end of each.
pub fn run_to_ends(
    loading: &Loading,
    loaded: Loaded,
    seed: u32,
    board: &mut Board,
    policy: &mut Box<dyn Policy>,
) -> System
    requires loads { CanLoad board.old.base (length board.old.bytes) loading.now }
    requires ready { IsReady loading.now board.old loaded }
    ensures count { length (processes_of result) ≡ count_of loading.now }
    ensures ended { AllEnded (processes_of result) }
    ensures lived { AllHaveLived (processes_of result) board.new (starts_of loading.now) }
    ensures board { board.new ≡ boards_at (starts_of loading.now) (λ number. life (starts_of loading.now number)) (count_of loading.now) board.old }
    ensures answered { HasAnswered (asked_of (chooser policy.old).kind seed loading.now) (chooser policy.old) (chooser policy.new) }
{
    let processes = loading.plan.processes.as_slice();
    begin(policy, processes.len() as u32, loading.plan.quantum, seed);
    let mut system = System::of(loaded, loading.plan.quantum);
    system.run(board, policy);
    system
}

/// Begins the policy.
pub(crate) fn begin(policy: &mut Box<dyn Policy>, processes: u32, quantum: u32, seed: u32)
    requires some { 1 ≤ processes }
    requires least { 1 ≤ quantum }
    requires most { quantum ≤ MOST_QUANTUM }
    ensures { Begins processes quantum seed (chooser policy.old) (chooser policy.new) }
{
    policy.begin(processes, quantum, seed);
}
