ghost use Rattle.std.specs.Prelude.{◌≡◌, ◌⊎◌, ◌*◌, ◌^◌, ◌<◌, IfSome};
ghost use Rattle.c6x_encoding.specs.Rows.{loaded, written_by_job, write_of_access, FitsAccess, FitsJob, FitsWrite};

use crate::rows::written;
use c6x_encoding::{Job, MemOp, Write};

/// The number of a load as its register holds it: with its sign, or with zeros before it.
fn loaded(signed: bool, size: u8, number: u32) -> u32
    requires size { (size ≡ 1) ⊎ (size ≡ 2) ⊎ (size ≡ 4) }
    requires fits { number < 2 ^ (8 * size) }
    ensures { result ≡ loaded signed size number }
{
    match (signed, size) {
        (true, 1) if number >= 0x80 => number + 0xFFFF_FF00,
        (true, 2) if number >= 0x8000 => number + 0xFFFF_0000,
        _ => number,
    }
}

/// What a load writes of the number that it read, which has `size` bytes. It is read from five
/// cycles later on (SPRU732, "LDW": four delay slots). A store writes nothing.
pub fn write_of_load(access: MemOp, number: u32) -> Option<Write>
    requires access { FitsAccess access }
    requires number { number < 2 ^ (8 * access.size) }
    ensures write { result ≡ write_of_access access number }
    ensures fits { IfSome result FitsWrite }
{
    match access.job {
        Job::Load {
            signed,
            side,
            register,
        } => written(side, register, loaded(signed, access.size, number), 4),
        Job::Store { .. } => None,
    }
}
