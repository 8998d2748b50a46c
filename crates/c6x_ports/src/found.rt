ghost use Rattle.std.specs.Prelude.{◌≡◌, ◌<◌, IfSome, OnOk, OnErr, length};
ghost use Rattle.std.specs.List.{position};
ghost use Rattle.std.specs.Option.{option_copied};
ghost use Rattle.c6x_spec.specs.Files.{file_at, stored};
ghost use Rattle.c6x_ports.specs.Told.{pairs_of, has_name};

use crate::stored::Stored;
use c6x_base::{Bytes, Name};
use std::alloc::{AllocError, Global};

/// The place of the first file of this name.
pub(crate) fn position_of(files: &[Stored], name: &[u8]) -> Option<usize>
    ensures place { result ≡ position (has_name name.now) files.now }
    ensures within { IfSome result (λ at. at < length files.now) }
{
    files.iter().position(|file| file.name.as_bytes() == name)
}

/// The bytes under this name.
pub(crate) fn bytes_under<'a>(files: &'a [Stored], name: &[u8]) -> Option<&'a [u8]>
    ensures { option_copied result ≡ file_at (pairs_of files.now) name.now }
{
    match position_of(files, name) {
        None => None,
        Some(at) => Some(files[at].bytes.as_bytes()),
    }
}

/// Puts the bytes into the file of this name, or a new file last.
pub(crate) fn put_file(
    files: &mut Vec<Stored>,
    alloc: Global,
    name: &Name,
    bytes: &[u8],
) -> Result<(), AllocError>
    ensures ok { OnOk result (pairs_of files.new.items ≡ stored (pairs_of files.old.items) name.now bytes.now) }
    ensures err { OnErr result (files.new.items ≡ files.old.items) }
{
    let copied = Bytes::from_bytes(alloc, bytes)?;
    match position_of(files, name.as_bytes()) {
        None => {
            let name = name.copy(alloc)?;
            files.push(Stored {
                name,
                bytes: copied,
            })?;
        }
        Some(at) => files[at].bytes = copied,
    }
    Ok(())
}
