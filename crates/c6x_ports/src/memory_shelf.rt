ghost use Rattle.std.specs.Prelude.{◌≡◌, ◌≢◌, ℕ, ◌+◌, ◌<◌, ◌≤◌, ◌↔◌, Option, IsTrue, IfOk, IfErr, OnOk, take, MatchResult, vec_len};
ghost use Rattle.std.specs.Option.{option_copied};
ghost use Rattle.c6x_spec.specs.Files.{Files, Rose, file_at, front_at, stored};
ghost use Rattle.c6x_ports.specs.Numbered.{fails_next};
ghost use Rattle.c6x_ports.specs.Others.{KeepsOthers};
ghost use Rattle.c6x_ports.specs.Told.{pairs_of, are_distinct};
ghost use Rattle.c6x_ports.specs.MemoryShelf.{ShelfInMemory, IsErrorOf, fetched, after_fetch, after_store};

use crate::found::{bytes_under, put_file};
use crate::numbered::{is_failing, raise};
use crate::shelf::{Shelf, ShelfError};
use crate::stored::Stored;
use c6x_base::Name;
use std::alloc::Global;
use std::marker::Model;

/// A shelf in memory, which tells its files.
///
/// Its calls of `fetch` and `store` are numbered together from 0, up to the first 4,294,967,295. Those whose number is
/// among `failing` fail.
#[derive(Debug, Drop)]
pub struct MemoryShelf {
    files: Vec<Stored>,
    failing: Vec<u32>,
    calls: u32,
    read_faults: u64,
    write_faults: u64,
    absences: u64,
}

impl Model for MemoryShelf {
    ghost use Rattle.std.specs.Prelude.{IsTrue};
    ghost use Rattle.c6x_ports.specs.MemoryShelf.{ShelfInMemory};
    ghost use Rattle.c6x_ports.specs.Told.{pairs_of, are_distinct};

    ghost Value = { ShelfInMemory };

    ghost view = { λ s. record {
      files = pairs_of s.files.items;
      failing = s.failing.items;
      calls = s.calls;
      read_faults = s.read_faults;
      write_faults = s.write_faults;
      absences = s.absences;
    } };

    ghost invariant = { λ s. IsTrue (are_distinct (pairs_of s.files.items)) };
}

impl MemoryShelf {
    /// A shelf of these files, before its call 0, with no fault and no absence so far.
    pub fn new(files: Vec<Stored>, failing: Vec<u32>) -> MemoryShelf
        requires { IsTrue (are_distinct (pairs_of files.items)) }
        ensures { result ≡ record {
          files = pairs_of files.items;
          failing = failing.items;
          calls = 0;
          read_faults = 0;
          write_faults = 0;
          absences = 0;
        } }
    {
        MemoryShelf {
            files,
            failing,
            calls: 0,
            read_faults: 0,
            write_faults: 0,
            absences: 0,
        }
    }

    /// The bytes under this name. `None` exactly where no file has it.
    pub fn get(&self, name: &[u8]) -> Option<&[u8]>
        ensures found { option_copied result ≡ file_at self.now.files name.now }
        ensures distinct { IsTrue (are_distinct self.now.files) }
    {
        bytes_under(&self.files, name)
    }
}

impl Shelf for MemoryShelf {
    ghost use Rattle.std.specs.Prelude.{Some};

    ghost seen = { λ s. record {
      files = Some s.files;
      read_faults = s.read_faults;
      write_faults = s.write_faults;
      absences = s.absences;
    } };

    /// The trait's clauses, and two more: which result comes, and what the shelf is afterwards.
    fn fetch(&mut self, alloc: Global, name: &Name, most: u32) -> Result<Vec<u8>, ShelfError>
        ensures answer { MatchResult result
            (λ bytes. fetched self.old name.now most ≡ Ok bytes.items) (IsErrorOf (fetched self.old name.now most)) }
        ensures after { self.new ≡ after_fetch self.old result }

        ensures short { IfOk result (λ bytes. vec_len bytes ≤ most + 1) }
        ensures lacked { result ≡ Err ShelfError.Missing → file_at self.old.files name.now ≡ None }
        ensures distinct { IsTrue (are_distinct self.old.files) }
        ensures read_faults_kept { self.old.read_faults ≤ self.new.read_faults }
        ensures absences_kept { self.old.absences ≤ self.new.absences }
    {
        if is_failing(&mut self.calls, &self.failing) {
            raise(&mut self.read_faults);
            return Err(ShelfError::Failed);
        }
        match bytes_under(&self.files, name.as_bytes()) {
            None => {
                raise(&mut self.absences);
                Err(ShelfError::Missing)
            }
            Some(bytes) => front_of(alloc, bytes, most),
        }
    }

    /// The trait's clauses, and two more: when it fails, and what the shelf is afterwards.
    fn store(&mut self, alloc: Global, name: &Name, bytes: &[u8]) -> Result<(), ShelfError>
        ensures fails { (result ≡ Err ShelfError.Failed) ↔ IsTrue (fails_next self.old.failing self.old.calls) }
        ensures after { self.new ≡ after_store self.old name.now bytes.now result }

        ensures distinct { IsTrue (are_distinct self.old.files) }
        ensures never_missing { result ≢ Err ShelfError.Missing }
        ensures write_faults_kept { self.old.write_faults ≤ self.new.write_faults }
    {
        if is_failing(&mut self.calls, &self.failing) {
            raise(&mut self.write_faults);
            return Err(ShelfError::Failed);
        }
        put_file(&mut self.files, alloc, name, bytes)?;
        Ok(())
    }
}

/// The first `most + 1` of these bytes, or all of them where they are fewer, in memory of their own.
fn front_of(alloc: Global, bytes: &[u8], most: u32) -> Result<Vec<u8>, ShelfError>
    ensures front { IfOk result (λ front. front.items ≡ take (most + 1) bytes.now) }
    ensures memory { IfErr result (λ e. e ≡ ShelfError.NoMemory) }
{
    let count = bytes.len().min(most as usize + 1);
    Ok(Vec::from_slice(alloc, &bytes[..count])?)
}
