ghost use Rattle.std.specs.Prelude.{false};
ghost use Rattle.c6x_spec.specs.Memory.{Memory};
ghost use Rattle.c6x_ports.specs.Sink.{Puts};
ghost use Rattle.c6x_cli_show.specs.Shown.{show_text};
ghost use Rattle.c6x_cli_show.specs.Stages.{code_stages, show_stages};
ghost use Rattle.c6x_cli_steps.specs.Stages.{Delivers};

use crate::code::put_code_of;
use crate::headers::put_headers;
use crate::tables::put_tables;
use c6x_cli_steps::CommitError;
use c6x_elf::File;
use c6x_ports::{Sink, SinkError};

/// Lists the code of a file. It takes no memory.
pub fn put_code<O: Sink>(file: &File, out: &mut O) -> Result<(), CommitError>
    ensures { (board : Memory)
        → Delivers (code_stages file.now board) (O.seen out.old) (O.seen out.new) board board result }
{
    put_code_of(out, file)?;
    Ok(())
}

/// Tells what stands in a file. It takes no memory.
pub fn put_show<O: Sink>(file: &File, out: &mut O) -> Result<(), CommitError>
    ensures { (board : Memory)
        → Delivers (show_stages file.now board) (O.seen out.old) (O.seen out.new) board board result }
{
    put_shown(out, file)?;
    Ok(())
}

/// Tells the headers, and then the entries of the tables.
#[tactic(auto, using(c6x_spec::proofs::Puts::takes_then, c6x_spec::proofs::Puts::takes_then_front, c6x_spec::proofs::Puts::front_of_more), unfolding(crate::specs::Shown::show_text))]
fn put_shown<O: Sink>(out: &mut O, file: &File) -> Result<(), SinkError>
    ensures { Puts (show_text false file.now) (O.seen out.old) (O.seen out.new) result }
{
    put_headers(out, file)?;
    put_tables(out, file)?;
    Ok(())
}
