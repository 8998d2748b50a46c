ghost use Rattle.std.specs.Prelude.{◌≡◌, ℕ, ◌<◌, ◌^◌, length, nat_le, IsTrue, IfOk};
ghost use Rattle.c6x_spec.specs.Files.{Files};
ghost use Rattle.c6x_cli_steps.specs.Lines.{within_most, whole_file};
ghost use Rattle.c6x_cli_steps.specs.Steps.{fetched, Decides, Prepares, most_bytes};

use crate::cause::Cause;
use crate::prepare_error::PrepareError;
use crate::refusals::{elf_label, refuse};
use c6x_base::Name;
use c6x_base::limits::MOST_FILE_BYTES;
use c6x_elf::ElfRule;
use c6x_ports::{Shelf, ShelfError};
use std::alloc::Global;

/// The bytes of a file, of a longer one than a file may be one byte more than that.
#[tactic(auto, using(crate::proofs::Fetched::front_of_none), unfolding(crate::specs::Steps::front_of, crate::specs::Steps::most_bytes))]
pub fn fetch_file<S: Shelf>(
    alloc: Global,
    shelf: &mut S,
    name: &Name,
) -> Result<Vec<u8>, PrepareError>
    ensures { Prepares (λ bytes. bytes.items) (λ told. fetched told name.now) (S.seen shelf.old) (S.seen shelf.new) result }
{
    match shelf.fetch(alloc, name, MOST_FILE_BYTES) {
        Ok(bytes) => Ok(bytes),
        Err(ShelfError::Missing) => Err(PrepareError::Because(Cause::Missing(name.copy(alloc)?))),
        Err(ShelfError::Failed) => Err(PrepareError::ReadFault(name.copy(alloc)?)),
        Err(ShelfError::NoMemory) => Err(PrepareError::Memory),
    }
}

/// The bytes of a file that is no longer than a file may be. A longer one is refused as E11 at 0.
pub fn fetch_whole<S: Shelf>(
    alloc: Global,
    shelf: &mut S,
    name: &Name,
) -> Result<Vec<u8>, PrepareError>
    ensures prepares { Prepares (λ bytes. bytes.items) (λ told. whole_file told name.now) (S.seen shelf.old) (S.seen shelf.new) result }
    ensures short { IfOk result (λ bytes. length bytes.items < 2 ^ 32) }
{
    let bytes = fetch_file(alloc, shelf, name)?;
    check_length(alloc, name, bytes)
}

/// The bytes of a file, if they are no more than a file may have.
#[tactic(auto, unfolding(crate::specs::Lines::within_most))]
fn check_length(alloc: Global, name: &Name, bytes: Vec<u8>) -> Result<Vec<u8>, PrepareError>
    ensures decides { Decides (λ whole. whole.items) (within_most name.now bytes.items) result }
    ensures short { IfOk result (λ whole. length whole.items < 2 ^ 32) }
{
    if is_short(&bytes) {
        return Ok(bytes);
    }
    Err(refuse(alloc, elf_label(ElfRule::Large), name, 0))
}

/// Whether bytes are no more than a file may have.
#[tactic(auto, unfolding(crate::specs::Steps::most_bytes))]
fn is_short(bytes: &[u8]) -> bool
    ensures test { result ≡ nat_le (length bytes.now) most_bytes }
    ensures short { IsTrue result → length bytes.now < 2 ^ 32 }
{
    bytes.len() <= MOST_FILE_BYTES as usize
}
