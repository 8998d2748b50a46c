ghost use Rattle.std.specs.Prelude.{◌≡◌, ◌≢◌, ℕ, ◌+◌, ◌<◌, ◌≤◌, List, [], Some, IsOk, IfOk, OnOk, OnErr, take, vec_len};
ghost use Rattle.c6x_spec.specs.Sinks.{Takes, TakesFront};
ghost use Rattle.c6x_ports.specs.Streams.{GivesFront};

use crate::shelf::ShelfError;
use std::alloc::Global;
use std::io::{Read, Write};

/// How many bytes one read asks for at most.
const CHUNK: usize = 16_384;

/// A write that failed, or took nothing.
#[derive(Clone, Copy, Debug)]
pub(crate) struct WriteFault;

/// The first `most + 1` bytes that a reader gives, or all of them where it has fewer. A read that fails is `Failed`.
pub(crate) fn read_front<R: Read>(
    alloc: Global,
    reader: &mut R,
    most: u32,
) -> Result<Vec<u8>, ShelfError>
    requires { most < 4294967295 }

    // Where the reader tells what it has left, those are the bytes.
    ensures front { (left : List ℕ) → R.remaining reader.old ≡ Some left
        → IfOk result (λ bytes. bytes.items ≡ take (most + 1) left) }
    ensures short { IfOk result (λ bytes. vec_len bytes ≤ most + 1) }

    // No more than that leaves the reader, whatever the answer is.
    ensures given { (left : List ℕ) → R.remaining reader.old ≡ Some left → GivesFront left (most + 1) (R.remaining reader.new) }
    ensures never_missing { result ≢ Err ShelfError.Missing }
{
    let limit = most as usize + 1;
    let mut all = Vec::new(alloc);
    let mut chunk = [0; CHUNK];
    while all.len() < limit {
        let part = &mut chunk[..CHUNK.min(limit - all.len())];
        match reader.read(part) {
            Err(_) => return Err(ShelfError::Failed),
            Ok(0) => return Ok(all),
            Ok(count) => all.extend_from_slice(&part[..count])?,
        }
    }
    Ok(all)
}

/// Writes all of these bytes. A write that fails, or that takes nothing of them, is a fault.
pub(crate) fn write_whole<W: Write>(writer: &mut W, bytes: &[u8]) -> Result<(), WriteFault>
    // Where the writer tells what it holds, the bytes are behind it, and after a fault a first part of them.
    ensures all { (had : List ℕ) → W.contents writer.old ≡ Some had
        → OnOk result (Takes bytes.now (Some had) (W.contents writer.new)) }
    ensures front { (had : List ℕ) → W.contents writer.old ≡ Some had
        → OnErr result (TakesFront bytes.now (Some had) (W.contents writer.new)) }
    ensures empty { bytes.now ≡ [] → IsOk result }
{
    let mut done = 0;
    while done < bytes.len() {
        match writer.write(&bytes[done..]) {
            Err(_) | Ok(0) => return Err(WriteFault),
            Ok(count) => done += count,
        }
    }
    Ok(())
}
