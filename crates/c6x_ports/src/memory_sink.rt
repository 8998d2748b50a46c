ghost use Rattle.std.specs.Prelude.{◌≡◌, ◌≤◌, [], IfOk, is_ok};
ghost use Rattle.c6x_ports.specs.MemorySink.{after_put, takes_all};

use crate::numbered::{is_failing, raise};
use crate::sink::{Sink, SinkError};
use std::alloc::{AllocError, Global};
use std::marker::Model;

/// A sink in memory, which tells the bytes that it took.
///
/// It takes at most `room` bytes; a put past them takes what fits, and fails. Its puts are numbered from 0, up to the
/// first 4,294,967,295. A put whose number is among `failing` takes nothing and fails, unless its piece is empty.
#[derive(Debug, Drop)]
pub struct MemorySink {
    bytes: Vec<u8>,
    room: u32,
    failing: Vec<u32>,
    puts: u32,
    faults: u64,
}

impl Model for MemorySink {
    ghost use Rattle.std.specs.Prelude.{◌≤◌, vec_len, vec_capacity};
    ghost use Rattle.c6x_ports.specs.MemorySink.{SinkInMemory};

    ghost Value = { SinkInMemory };

    ghost view = { λ s. record {
      bytes = s.bytes.items;
      room = s.room;
      failing = s.failing.items;
      puts = s.puts;
      faults = s.faults;
    } };

    // The room is reserved, so that no put allocates.
    ghost invariant = { λ s. (vec_len s.bytes ≤ s.room) × (s.room ≤ vec_capacity s.bytes) };
}

impl MemorySink {
    /// An empty sink with this room, before its put 0, with no fault so far.
    pub fn new(alloc: Global, room: u32, failing: Vec<u32>) -> Result<MemorySink, AllocError>
        ensures { IfOk result (λ sink. sink ≡ record {
          bytes = [];
          room = room;
          failing = failing.items;
          puts = 0;
          faults = 0;
        }) }
    {
        let bytes = Vec::with_capacity(alloc, room as usize)?;
        Ok(MemorySink {
            bytes,
            room,
            failing,
            puts: 0,
            faults: 0,
        })
    }

    /// The bytes taken so far.
    pub fn bytes(&self) -> &[u8]
        ensures { result.now ≡ self.now.bytes }
    {
        &self.bytes
    }
}

impl Sink for MemorySink {
    ghost use Rattle.std.specs.Prelude.{Some};

    ghost seen = { λ s. record { bytes = Some s.bytes; faults = s.faults } };

    /// The trait's clauses, and two more: which result comes, and what the sink is afterwards.
    fn put(&mut self, bytes: &[u8]) -> Result<(), SinkError>
        ensures answer { is_ok result ≡ takes_all self.old bytes.now }
        ensures after { self.new ≡ after_put self.old bytes.now }
        ensures faults_kept { self.old.faults ≤ self.new.faults }
    {
        let fails = is_failing(&mut self.puts, &self.failing);
        let space = self.room as usize - self.bytes.len();
        let count = if fails { 0 } else { bytes.len().min(space) };
        match self.bytes.extend_from_slice(&bytes[..count]) {
            Ok(()) => {}
            Err(_) => unreachable!(),
        }
        if count < bytes.len() {
            raise(&mut self.faults);
            return Err(SinkError::Failed);
        }
        Ok(())
    }
}
