ghost use Rattle.std.specs.Prelude.{◌≡◌, ◌≤◌, Some, OnOk};
ghost use Rattle.c6x_spec.specs.Files.{Rose};
ghost use Rattle.c6x_cli_steps.specs.declared.commit_error.CommitError.TheVariants.{Memory as memory, WriteFault as write_fault};
ghost use Rattle.c6x_cli_steps.specs.Stores.{HasCutStore, HasStored};

use c6x_base::{Bytes, Name};
use c6x_cli_steps::CommitError;
use c6x_ports::{Shelf, ShelfError};
use std::alloc::Global;

/// Stores these bytes under the name. Nothing else is written.
pub fn store_file<S: Shelf>(
    alloc: Global,
    shelf: &mut S,
    name: &Name,
    bytes: &Bytes,
) -> Result<(), CommitError>
    ensures stored { OnOk result (HasStored (Some (name.now, bytes.now)) (S.seen shelf.old).files (S.seen shelf.new).files) }
    ensures cut { result ≡ Err write_fault → HasCutStore (Some (name.now, bytes.now)) (S.seen shelf.old).files (S.seen shelf.new).files }
    ensures failed { result ≡ Err write_fault → Rose (S.seen shelf.old).write_faults (S.seen shelf.new).write_faults }
    ensures unchanged { result ≡ Err memory → (S.seen shelf.new).files ≡ (S.seen shelf.old).files }
    ensures counted { (S.seen shelf.old).write_faults ≤ (S.seen shelf.new).write_faults }
{
    match shelf.store(alloc, name, bytes.as_bytes()) {
        Ok(()) => Ok(()),
        Err(ShelfError::Missing) => unreachable!(),
        Err(ShelfError::Failed) => Err(CommitError::WriteFault),
        Err(ShelfError::NoMemory) => Err(CommitError::Memory),
    }
}
