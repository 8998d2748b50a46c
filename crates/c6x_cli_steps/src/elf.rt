ghost use Rattle.std.specs.Prelude.{◌≡◌, false, IfOk};
ghost use Rattle.c6x_elf.specs.Form.{HasReadForm};
ghost use Rattle.c6x_elf.specs.Reading.{file_of, refusal_of};
ghost use Rattle.c6x_cli_steps.specs.Elf.{elf_steps, unless_broken};
ghost use Rattle.c6x_cli_steps.specs.Steps.{Decides, Prepares};

use crate::files::fetch_whole;
use crate::prepare_error::PrepareError;
use crate::refusals::{elf_label, refuse};
use c6x_base::Name;
use c6x_elf::{ElfError, File, read_file};
use c6x_ports::Shelf;
use std::alloc::Global;

/// The file with this name.
pub fn fetch_elf<S: Shelf>(alloc: Global, shelf: &mut S, name: &Name) -> Result<File, PrepareError>
    ensures prepares { Prepares (λ file. file) (λ told. elf_steps told name.now) (S.seen shelf.old) (S.seen shelf.new) result }
    ensures form { IfOk result (HasReadForm false) }
{
    let bytes = fetch_whole(alloc, shelf, name)?;
    file_of(alloc, name, &bytes)
}

/// The file of these bytes, or the first rule that they break.
fn file_of(alloc: Global, name: &Name, bytes: &[u8]) -> Result<File, PrepareError>
    ensures decides { Decides (λ file. file) (unless_broken name.now (file_of bytes.now) (refusal_of bytes.now)) result }
    ensures form { IfOk result (HasReadForm false) }
{
    match read_file(alloc, bytes) {
        Ok(file) => Ok(file),
        Err(ElfError::Rule { rule, place }) => Err(refuse(alloc, elf_label(rule), name, place)),
        Err(ElfError::NoMemory) => Err(PrepareError::Memory),
    }
}
