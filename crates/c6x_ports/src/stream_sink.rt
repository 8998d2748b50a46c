ghost use Rattle.std.specs.Prelude.{◌≡◌, ℕ, ◌≤◌, List, [], Some, IsOk, OnOk, OnErr};
ghost use Rattle.c6x_spec.specs.Files.{Rose};
ghost use Rattle.c6x_spec.specs.Sinks.{Takes, TakesFront};

use crate::numbered::raise;
use crate::sink::{Sink, SinkError};
use crate::streams::write_whole;
use std::io::Write;
use std::marker::Model;
use std::rt::{Stderr, Stdout};

/// A sink over a writer. Contracts see what the writer holds, where it tells it, and the count of faults.
///
/// A writer need not say that it goes on telling nothing, so as a [`Sink`] it tells no content.
#[derive(Drop)]
pub struct StreamSink<W: Write> {
    writer: W,
    faults: u64,
}

/// The standard output.
pub type OutSink = StreamSink<Stdout>;

/// The standard error.
pub type ErrSink = StreamSink<Stderr>;

impl<W: Write> Model for StreamSink<W> {
    ghost use Rattle.c6x_ports.specs.Sink.{Taken};

    ghost Value = { Taken };

    ghost view = { λ s. record { bytes = W.contents s.writer; faults = s.faults } };
}

impl StreamSink<Stdout> {
    /// The standard output with no fault so far.
    pub fn new(rt: &HostRuntime) -> OutSink
        ensures { result.faults ≡ 0 }
    {
        StreamSink {
            writer: rt.stdout(),
            faults: 0,
        }
    }
}

impl StreamSink<Stderr> {
    /// The standard error with no fault so far.
    pub fn new(rt: &HostRuntime) -> ErrSink
        ensures { result.faults ≡ 0 }
    {
        StreamSink {
            writer: rt.stderr(),
            faults: 0,
        }
    }
}

impl<W: Write> Sink for StreamSink<W> {
    ghost use Rattle.std.specs.Prelude.{None};

    ghost seen = { λ s. record { bytes = None; faults = s.faults } };

    /// The trait's clauses where nothing is told, and two more: what the writer holds afterwards.
    fn put(&mut self, bytes: &[u8]) -> Result<(), SinkError>
        ensures all { (had : List ℕ) → self.old.bytes ≡ Some had
            → OnOk result (Takes bytes.now (Some had) self.new.bytes) }
        ensures front { (had : List ℕ) → self.old.bytes ≡ Some had
            → OnErr result (TakesFront bytes.now (Some had) self.new.bytes) }

        ensures failed { OnErr result (Rose self.old.faults self.new.faults) }
        ensures kept { self.old.faults ≤ self.new.faults }
        ensures empty { bytes.now ≡ [] → IsOk result }
    {
        match write_whole(&mut self.writer, bytes) {
            Ok(()) => Ok(()),
            Err(_) => {
                raise(&mut self.faults);
                Err(SinkError::Failed)
            }
        }
    }
}
