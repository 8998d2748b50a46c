ghost use Rattle.std.specs.Prelude.{◌≡◌, ◌++◌, length};
ghost use Rattle.c6x_load.specs.ReadBack.{AreSeatsReadBack};
ghost use Rattle.c6x_ports.specs.Sink.{Puts};
ghost use Rattle.c6x_cli_steps.specs.Stages.{Delivers};
ghost use Rattle.c6x_cli_run.specs.Placing.{CanLoad};
ghost use Rattle.c6x_cli_run.specs.Bases.{base_text};
ghost use Rattle.c6x_cli_run.specs.Values.{value_text};
ghost use Rattle.c6x_cli_run.specs.Stages.{map_stages};

use crate::bases::put_bases;
use crate::loading::Loading;
use crate::starting::write_start;
use crate::values::put_values;
use c6x_board::Board;
use c6x_cli_steps::CommitError;
use c6x_ports::{Sink, SinkError};

/// Loads the plan's processes on the board, and lists where everything stands and what the slots and the fields hold. It
/// takes no memory.
pub fn put_map<O: Sink>(
    loading: &Loading,
    out: &mut O,
    board: &mut Board,
) -> Result<(), CommitError>
    requires { CanLoad board.old.base (length board.old.bytes) loading.now }
    ensures { Delivers (map_stages loading.now board.old) (O.seen out.old) (O.seen out.new) board.old board.new result }
{
    write_start(loading, board);
    put_report(out, loading, board)?;
    Ok(())
}

/// Lists where everything stands, and what the slots and the fields hold.
#[tactic(auto, using(c6x_spec::proofs::Puts::takes_then, c6x_spec::proofs::Puts::takes_then_front, c6x_spec::proofs::Puts::front_of_more))]
fn put_report<O: Sink>(out: &mut O, loading: &Loading, board: &Board) -> Result<(), SinkError>
    requires loads { CanLoad board.now.base (length board.now.bytes) loading.now }
    requires read_back { AreSeatsReadBack board.now loading.now.modules loading.now.placement.texts loading.now.bound.processes loading.now.placement.seats }
    ensures { Puts (base_text loading.now ++ value_text loading.now) (O.seen out.old) (O.seen out.new) result }
{
    put_bases(out, loading)?;
    put_values(out, loading, board)?;
    Ok(())
}
