ghost use Rattle.std.specs.Prelude.{◌≡◌, false, length, All, IfOk};
ghost use Rattle.c6x_elf.specs.Form.{HasReadForm};
ghost use Rattle.c6x_symbols.specs.Objects.{IsObject};
ghost use Rattle.c6x_cli.specs.Linking.{as_object, object_file, object_files};
ghost use Rattle.c6x_cli_steps.specs.Steps.{Decides, Prepares};

use c6x_base::Name;
use c6x_cli_steps::{PrepareError, elf_label, fetch_elf, refuse};
use c6x_elf::{ElfRule, File, abi};
use c6x_ports::Shelf;
use std::alloc::{AllocError, Global};

/// The offset of the file type in a file header (gABI chapter 4, "ELF Header").
const FILE_TYPE_AT: u32 = 16;

/// The objects with these names.
pub fn fetch_objects<S: Shelf>(
    alloc: Global,
    shelf: &mut S,
    names: &[Name],
) -> Result<Vec<File>, PrepareError>
    ensures prepares { Prepares (λ objects. objects.items) (λ told. object_files told names.now) (S.seen shelf.old) (S.seen shelf.new) result }
    ensures objects { IfOk result (λ objects. All (IsObject false) objects.items) }
    ensures count { IfOk result (λ objects. length objects.items ≡ length names.now) }
{
    let mut objects = Vec::new(alloc);
    for name in names {
        let object = fetch_object(alloc, shelf, name)?;
        objects.push(object).map_err(AllocError::from)?;
    }
    Ok(objects)
}

/// The object with this name.
fn fetch_object<S: Shelf>(alloc: Global, shelf: &mut S, name: &Name) -> Result<File, PrepareError>
    ensures prepares { Prepares (λ object. object) (λ told. object_file told name.now) (S.seen shelf.old) (S.seen shelf.new) result }
    ensures object { IfOk result (IsObject false) }
{
    let file = fetch_elf(alloc, shelf, name)?;
    as_object(alloc, name, file)
}

/// The file, where it is an object.
#[tactic(auto, unfolding(crate::specs::Linking::as_object))]
fn as_object(alloc: Global, name: &Name, file: File) -> Result<File, PrepareError>
    requires { HasReadForm false file }
    ensures decides { Decides (λ object. object) (as_object name.now file) result }
    ensures object { IfOk result (IsObject false) }
{
    if file.kind == abi::ET_REL {
        return Ok(file);
    }
    Err(refuse(alloc, elf_label(ElfRule::FileType), name, FILE_TYPE_AT))
}
