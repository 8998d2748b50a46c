ghost use Rattle.std.specs.Prelude.{◌≤◌, List, Some, length, map};
ghost use Rattle.c6x_spec.specs.Memory.{Memory};
ghost use Rattle.c6x_ports.specs.Chooser.{Chooser};
ghost use Rattle.c6x_ports.specs.declared.kind.Kind.TheVariants.{Round as round_kind};
ghost use Rattle.c6x_ports.specs.Shelf.{Shelved};
ghost use Rattle.c6x_ports.specs.Sink.{Taken};
ghost use Rattle.c6x_cli.specs.Meaning.{CanCommit, HasPolicy, asks, generated_outcome, is_store, outcome_of};
ghost use Rattle.c6x_cli_run.specs.Placing.{CanLoad};
ghost use Rattle.c6x_cli_run.specs.Stages.{asked_of, map_stages, run_telling};
ghost use Rattle.c6x_cli_show.specs.Stages.{code_stages, show_stages};
ghost use Rattle.c6x_cli_run.specs.Exits.{Carries, asking_outcome, put_outcome, store_outcome};
ghost use Rattle.c6x_cli_steps.specs.Stores.{KeepsWriteFaults};
ghost use Rattle.c6x_cli_steps.specs.World.{world};

use crate::prepared::Prepared;
use crate::putting::put_generated;
use crate::serving::first_policy;
use crate::store::store_file;
use c6x_base::{Bytes, Name};
use c6x_board::Board;
use c6x_cli_run::{Loading, put_map, put_run};
use c6x_cli_show::{put_code, put_show};
use c6x_cli_steps::CommitError;
use c6x_elf::File;
use c6x_ports::{Kind, Policy, Shelf, Sink};
use std::alloc::Global;

/// Stores, or writes the board and the output. The error output stays.
pub fn commit<S: Shelf, O: Sink>(
    alloc: Global,
    prepared: Prepared,
    shelf: &mut S,
    out: &mut O,
    board: &mut Board,
    policies: &mut Vec<Box<dyn Policy>>,
) -> Result<(), CommitError>
    requires ready { CanCommit board.old prepared }
    requires served { HasPolicy (asks prepared) (map chooser policies.old.items) }
    ensures carries { (err : Taken) → Carries (outcome_of prepared board.old) result
        (world (S.seen shelf.old) (O.seen out.old) err board.old (map chooser policies.old.items))
        (world (S.seen shelf.new) (O.seen out.new) err board.new (map chooser policies.new.items)) }
    ensures write_faults { KeepsWriteFaults (is_store prepared) (S.seen shelf.old) (S.seen shelf.new) }
{
    match prepared {
        Prepared::Dis(file) => commit_dis(&file, out),
        Prepared::Show(file) => commit_show(&file, out),
        Prepared::Map(loading) => commit_map(&loading, out, board),
        Prepared::Run(loading, kind, seed, turns) => {
            commit_run(alloc, &loading, kind, seed, turns, out, board, policies)
        }
        Prepared::Generate(number, loading) => {
            commit_generated(alloc, number, &loading, out, board, policies)
        }
        Prepared::Store(name, bytes) => commit_store(alloc, shelf, &name, &bytes),
    }
}

/// Lists the code of a file.
fn commit_dis<O: Sink>(file: &File, out: &mut O) -> Result<(), CommitError>
    ensures { (shelf : Shelved) → (err : Taken) → (board : Memory) → (policies : List Chooser) → Carries (put_outcome (code_stages file.now board)) result
        (world shelf (O.seen out.old) err board policies) (world shelf (O.seen out.new) err board policies) }
{
    put_code(file, out)
}

/// Tells what stands in a file.
fn commit_show<O: Sink>(file: &File, out: &mut O) -> Result<(), CommitError>
    ensures { (shelf : Shelved) → (err : Taken) → (board : Memory) → (policies : List Chooser) → Carries (put_outcome (show_stages file.now board)) result
        (world shelf (O.seen out.old) err board policies) (world shelf (O.seen out.new) err board policies) }
{
    put_show(file, out)
}

/// Puts the report of `map` and writes the board.
fn commit_map<O: Sink>(loading: &Loading, out: &mut O, board: &mut Board) -> Result<(), CommitError>
    requires { CanLoad board.old.base (length board.old.bytes) loading.now }
    ensures { (shelf : Shelved) → (err : Taken) → (policies : List Chooser) → Carries (put_outcome (map_stages loading.now board.old)) result
        (world shelf (O.seen out.old) err board.old policies) (world shelf (O.seen out.new) err board.new policies) }
{
    put_map(loading, out, board)
}

/// Stores these bytes under the name.
fn commit_store<S: Shelf>(
    alloc: Global,
    shelf: &mut S,
    name: &Name,
    bytes: &Bytes,
) -> Result<(), CommitError>
    ensures carries { (out err : Taken) → (board : Memory) → (policies : List Chooser) → Carries (store_outcome name.now bytes.now board) result
        (world (S.seen shelf.old) out err board policies) (world (S.seen shelf.new) out err board policies) }
    ensures counted { (S.seen shelf.old).write_faults ≤ (S.seen shelf.new).write_faults }
{
    store_file(alloc, shelf, name, bytes)
}

/// Puts the report of `run`, runs the processes under the first policy of the kind and writes the board.
fn commit_run<O: Sink>(
    alloc: Global,
    loading: &Loading,
    kind: Kind,
    seed: u32,
    turns: bool,
    out: &mut O,
    board: &mut Board,
    policies: &mut Vec<Box<dyn Policy>>,
) -> Result<(), CommitError>
    requires loads { CanLoad board.old.base (length board.old.bytes) loading.now }
    requires served { HasPolicy (Some kind) (map chooser policies.old.items) }
    ensures { (shelf : Shelved) → (err : Taken) → Carries (asking_outcome (run_telling turns kind seed loading.now board.old) (asked_of kind seed loading.now)) result
        (world shelf (O.seen out.old) err board.old (map chooser policies.old.items))
        (world shelf (O.seen out.new) err board.new (map chooser policies.new.items)) }
{
    match first_policy(policies.as_slice(), kind) {
        Some(place) => put_run(
            alloc,
            loading,
            seed,
            turns,
            out,
            board,
            &mut policies[place],
        ),
        None => unreachable!(),
    }
}

/// Runs what a number came to under the first policy of kind Round, writes the board and puts the sums.
fn commit_generated<O: Sink>(
    alloc: Global,
    number: u32,
    loading: &Loading,
    out: &mut O,
    board: &mut Board,
    policies: &mut Vec<Box<dyn Policy>>,
) -> Result<(), CommitError>
    requires loads { CanLoad board.old.base (length board.old.bytes) loading.now }
    requires served { HasPolicy (Some round_kind) (map chooser policies.old.items) }
    ensures { (shelf : Shelved) → (err : Taken) → Carries (generated_outcome number loading.now board.old) result
        (world shelf (O.seen out.old) err board.old (map chooser policies.old.items))
        (world shelf (O.seen out.new) err board.new (map chooser policies.new.items)) }
{
    match first_policy(policies.as_slice(), Kind::Round) {
        Some(place) => put_generated(alloc, number, loading, out, board, &mut policies[place]),
        None => unreachable!(),
    }
}
