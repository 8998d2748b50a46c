ghost use Rattle.std.specs.Prelude.{◌≡◌, IfOk, OnErr, OnOk, length};
ghost use Rattle.c6x_load.specs.ReadBack.{AreSeatsReadBack};
ghost use Rattle.c6x_cli_run.specs.Placing.{CanLoad};
ghost use Rattle.c6x_cli_run.specs.Boards.{start_board};
ghost use Rattle.c6x_cli_run.specs.Runs.{IsReady};

use crate::loading::Loading;
use c6x_board::Board;
use c6x_load::{load, load_parts};
use c6x_sched::Loaded;
use std::alloc::{AllocError, Global};

/// Writes the start bytes of the plan's processes, and takes no memory.
pub fn write_start(loading: &Loading, board: &mut Board)
    requires { CanLoad board.old.base (length board.old.bytes) loading.now }
    ensures board { board.new ≡ start_board loading.now board.old }
    ensures loads { CanLoad board.new.base (length board.new.bytes) loading.now }
    ensures read_back { AreSeatsReadBack board.new loading.now.modules loading.now.placement.texts loading.now.bound.processes loading.now.placement.seats }
{
    let processes = loading.plan.processes.as_slice();
    load_parts(
        &loading.modules,
        processes,
        &loading.bound,
        &loading.placement,
        board,
    );
}

/// Does the same, and makes the processes first. After `AllocError` the board is as it was.
pub fn load_plan(alloc: Global, loading: &Loading, board: &mut Board) -> Result<Loaded, AllocError>
    requires { CanLoad board.old.base (length board.old.bytes) loading.now }
    ensures board { OnOk result (board.new ≡ start_board loading.now board.old) }
    ensures loads { OnOk result (CanLoad board.new.base (length board.new.bytes) loading.now) }
    ensures ready { IfOk result (IsReady loading.now board.new) }
    ensures err { OnErr result (board.new ≡ board.old) }
{
    let processes = loading.plan.processes.as_slice();
    let loaded = load(
        alloc,
        &loading.modules,
        processes,
        &loading.bound,
        &loading.placement,
        board,
    )?;
    Ok(loaded)
}
