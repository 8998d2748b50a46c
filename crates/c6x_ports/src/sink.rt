ghost use Rattle.std.specs.Prelude.{◌≡◌, [], IsOk};
ghost use Rattle.c6x_ports.specs.Sink.{Taken, Puts};

use thiserror::Error;

/// Why a sink did not take all of a piece.
#[derive(Debug, Drop, Error)]
pub enum SinkError {
    /// Writing failed.
    #[error("Failed")]
    Failed,
}

/// Where bytes are written, one behind the other.
///
/// A sink may tell the bytes that it took; each clause on contents holds where it does. It counts the puts that
/// failed. The count never falls, and it rose where it is greater afterwards or stands at 2^64 - 1.
pub trait Sink {
    /// The bytes taken so far, where they are told, and how many puts have failed.
    ghost seen: { Self → Taken };

    /// Appends these bytes. `Failed` comes only with a fault, and then a first part of them was appended. An empty piece
    /// never fails.
    fn put(&mut self, bytes: &[u8]) -> Result<(), SinkError>
        ensures puts { Puts bytes.now (seen self.old) (seen self.new) result }
        ensures empty { bytes.now ≡ [] → IsOk result };
}
