ghost use Rattle.std.specs.Prelude.{◌≡◌, ◌≢◌, ◌+◌, ◌<◌, ◌≤◌, IfOk, IsErr, vec_len};
ghost use Rattle.std.specs.Str.{IsUtf8};
ghost use Rattle.c6x_spec.specs.Files.{Rose};

use crate::numbered::raise;
use crate::shelf::{Shelf, ShelfError};
use crate::streams::{WriteFault, read_front, write_whole};
use c6x_base::Name;
use std::alloc::Global;
use std::fs::File;
use std::io::ErrorKind;
use std::marker::Model;

/// The files of the file system, named by their paths from the working directory. Contracts see its counts.
///
/// It tells no content. A name that is not UTF-8 names no file: a fetch of it is an absence, a store to it a fault.
#[derive(Drop)]
pub struct DirShelf<'a> {
    rt: &'a HostRuntime,
    read_faults: u64,
    write_faults: u64,
    absences: u64,
}

impl<'a> Model for DirShelf<'a> {
    ghost use Rattle.c6x_ports.specs.Counts.{Counts};

    ghost Value = { Counts };

    ghost view = { λ s. record {
      read_faults = s.read_faults;
      write_faults = s.write_faults;
      absences = s.absences;
    } };
}

impl<'a> DirShelf<'a> {
    /// The shelf with no fault and no absence so far.
    pub fn new(rt: &'a HostRuntime) -> DirShelf<'a>
        ensures { result ≡ record { read_faults = 0; write_faults = 0; absences = 0 } }
    {
        DirShelf {
            rt,
            read_faults: 0,
            write_faults: 0,
            absences: 0,
        }
    }
}

impl<'a> Shelf for DirShelf<'a> {
    ghost use Rattle.std.specs.Prelude.{None};

    ghost seen = { λ s. record {
      files = None;
      read_faults = s.read_faults;
      write_faults = s.write_faults;
      absences = s.absences;
    } };

    /// The trait's clauses where nothing is told, and one more: a name that is not UTF-8 is missing.
    fn fetch(&mut self, alloc: Global, name: &Name, most: u32) -> Result<Vec<u8>, ShelfError>
        requires { most < 4294967295 }

        ensures nameless { ¬ (IsUtf8 name.now) → result ≡ Err ShelfError.Missing }
        ensures short { IfOk result (λ bytes. vec_len bytes ≤ most + 1) }

        ensures missing { result ≡ Err ShelfError.Missing → Rose self.old.absences self.new.absences }
        ensures failed { result ≡ Err ShelfError.Failed → Rose self.old.read_faults self.new.read_faults }

        ensures write_faults_stay { self.new.write_faults ≡ self.old.write_faults }
        ensures read_faults_kept { self.old.read_faults ≤ self.new.read_faults }
        ensures absences_kept { self.old.absences ≤ self.new.absences }
    {
        let result = front_of(self.rt, alloc, name, most);
        match &result {
            Err(ShelfError::Missing) => raise(&mut self.absences),
            Err(ShelfError::Failed) => raise(&mut self.read_faults),
            Err(ShelfError::NoMemory) | Ok(_) => {}
        }
        result
    }

    /// The trait's clauses where nothing is told, and one more: a name that is not UTF-8 takes nothing.
    fn store(&mut self, _alloc: Global, name: &Name, bytes: &[u8]) -> Result<(), ShelfError>
        ensures nameless { ¬ (IsUtf8 name.now) → result ≡ Err ShelfError.Failed }
        ensures never_missing { result ≢ Err ShelfError.Missing }

        ensures failed { result ≡ Err ShelfError.Failed → Rose self.old.write_faults self.new.write_faults }

        ensures read_faults_stay { self.new.read_faults ≡ self.old.read_faults }
        ensures absences_stay { self.new.absences ≡ self.old.absences }
        ensures write_faults_kept { self.old.write_faults ≤ self.new.write_faults }
    {
        match write_file(self.rt, name, bytes) {
            Ok(()) => Ok(()),
            Err(WriteFault) => {
                raise(&mut self.write_faults);
                Err(ShelfError::Failed)
            }
        }
    }
}

/// The front of the file of this name.
fn front_of(rt: &HostRuntime, alloc: Global, name: &Name, most: u32) -> Result<Vec<u8>, ShelfError>
    requires { most < 4294967295 }
    ensures nameless { ¬ (IsUtf8 name.now) → result ≡ Err ShelfError.Missing }
    ensures short { IfOk result (λ bytes. vec_len bytes ≤ most + 1) }
{
    let Ok(path) = str::from_utf8(name.as_bytes()) else {
        return Err(ShelfError::Missing);
    };
    match File::open(rt, path) {
        Ok(mut file) => read_front(alloc, &mut file, most),
        Err(error) if error.kind() == ErrorKind::NotFound => Err(ShelfError::Missing),
        Err(_) => Err(ShelfError::Failed),
    }
}

/// Writes these bytes as the file of this name.
fn write_file(rt: &HostRuntime, name: &Name, bytes: &[u8]) -> Result<(), WriteFault>
    ensures nameless { ¬ (IsUtf8 name.now) → IsErr result }
{
    let Ok(path) = str::from_utf8(name.as_bytes()) else {
        return Err(WriteFault);
    };
    match File::create(rt, path) {
        Ok(mut file) => write_whole(&mut file, bytes),
        Err(_) => Err(WriteFault),
    }
}
