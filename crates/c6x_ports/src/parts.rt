ghost use Rattle.std.specs.List.{flat_map};
ghost use Rattle.c6x_ports.specs.Sink.{Puts};

use crate::sink::{Sink, SinkError};

/// Puts these pieces one behind the other, up to the first that fails.
#[tactic(auto, using(c6x_spec::proofs::Puts::takes_then, c6x_spec::proofs::Puts::front_of_pieces))]
pub fn put_parts<O: Sink>(sink: &mut O, parts: &[&[u8]]) -> Result<(), SinkError>
    ensures { Puts (flat_map (λ p. p.now) parts.now) (O.seen sink.old) (O.seen sink.new) result }
{
    for part in parts {
        sink.put(part)?;
    }
    Ok(())
}
