ghost use Rattle.std.specs.Prelude.{◌≡◌, ◌≢◌, ◌+◌, ◌<◌, ◌≤◌, IsTrue, IfOk, OnOk, vec_len};
ghost use Rattle.c6x_spec.specs.Files.{Files, Rose, file_at, front_at, stored};
ghost use Rattle.c6x_ports.specs.Others.{KeepsOthers};
ghost use Rattle.c6x_ports.specs.Shelf.{Shelved, KeepsCounts, KeepsFiles};
ghost use Rattle.c6x_ports.specs.Told.{are_distinct};

use c6x_base::Name;
use std::alloc::{AllocError, AllocFailed, Global};
use thiserror::Error;

/// Why a shelf gave or took no file.
#[derive(Debug, Drop, Error)]
pub enum ShelfError {
    /// The shelf has no file of this name.
    #[error("Missing")]
    Missing,
    /// Reading or writing failed.
    #[error("Failed")]
    Failed,
    /// There was no memory for the bytes.
    #[error("NoMemory")]
    NoMemory,
}

impl From<AllocError> for ShelfError {
    ghost use Rattle.std.specs.Prelude.{◌≡◌};
    ghost use Rattle.c6x_ports.specs.declared.shelf.ShelfError.TheVariants.{NoMemory};

    ghost from_gives = { λ _ e. e ≡ NoMemory };

    fn from(_error: AllocError) -> ShelfError {
        ShelfError::NoMemory
    }
}

impl<T: Drop> From<AllocFailed<T>> for ShelfError {
    ghost use Rattle.std.specs.Prelude.{◌≡◌};
    ghost use Rattle.c6x_ports.specs.declared.shelf.ShelfError.TheVariants.{NoMemory};

    ghost from_gives = { λ _ e. e ≡ NoMemory };

    fn from(_error: AllocFailed<T>) -> ShelfError {
        ShelfError::NoMemory
    }
}

/// Files by name.
///
/// A shelf may tell its files, as a list of names with their bytes, in which no name stands twice; each clause on
/// contents holds where it does. It counts the reads that failed, the writes that failed and the names that it lacked. No
/// count ever falls, and one rose where it is greater afterwards or stands at 2^64 - 1.
pub trait Shelf {
    /// The files, where they are told, and how many fetches have failed, how many stores have failed and how many
    /// fetches have met no file of their name.
    ghost seen: { Self → Shelved };

    /// The bytes of a file of at most `most` bytes, and of a longer one the first `most + 1`.
    ///
    /// `Missing` comes only where the told files lack the name, `Failed` only with a read fault. Want of memory may come
    /// at any call.
    fn fetch(&mut self, alloc: Global, name: &Name, most: u32) -> Result<Vec<u8>, ShelfError>
        requires { most < 4294967295 }

        ensures found { (told : Files) → (seen self.old).files ≡ Some told
            → IfOk result (λ bytes. front_at told name.now most ≡ Some bytes.items) }
        ensures short { IfOk result (λ bytes. vec_len bytes ≤ most + 1) }
        ensures lacked { (told : Files) → (seen self.old).files ≡ Some told
            → result ≡ Err ShelfError.Missing → file_at told name.now ≡ None }
        ensures distinct { (told : Files) → (seen self.old).files ≡ Some told → IsTrue (are_distinct told) }

        ensures missing { result ≡ Err ShelfError.Missing → Rose (seen self.old).absences (seen self.new).absences }
        ensures failed { result ≡ Err ShelfError.Failed → Rose (seen self.old).read_faults (seen self.new).read_faults }
        ensures keeps { KeepsFiles (seen self.old) (seen self.new) };

    /// Puts these bytes under the name, in its old place or last.
    ///
    /// `Failed` comes only with a write fault, and then nothing is told of this name. `Missing` never comes. Want of
    /// memory may come at any call, and leaves the files as they were.
    fn store(&mut self, alloc: Global, name: &Name, bytes: &[u8]) -> Result<(), ShelfError>
        ensures done { (told : Files) → (seen self.old).files ≡ Some told
            → OnOk result ((seen self.new).files ≡ Some (stored told name.now bytes.now)) }
        ensures others { (told : Files) → (seen self.old).files ≡ Some told
            → result ≡ Err ShelfError.Failed → KeepsOthers name.now told (seen self.new).files }
        ensures unchanged { result ≡ Err ShelfError.NoMemory → (seen self.new).files ≡ (seen self.old).files }
        ensures distinct { (told : Files) → (seen self.old).files ≡ Some told → IsTrue (are_distinct told) }

        ensures failed { result ≡ Err ShelfError.Failed → Rose (seen self.old).write_faults (seen self.new).write_faults }
        ensures never_missing { result ≢ Err ShelfError.Missing }
        ensures keeps { KeepsCounts (seen self.old) (seen self.new) };
}
