ghost use Rattle.std.specs.Prelude.{◌≡◌, ◌+◌, ◌≤◌, ◌++◌, IfOk, OnOk};
ghost use Rattle.c6x_link.specs.Images.{stub_row};
ghost use Rattle.c6x_link.specs.Sections.{stub_bytes};

use c6x_elf::put_words;
use std::alloc::{AllocError, Global};

/// The stubs' instructions, the first one's word having this number.
#[tactic(auto, using(crate::proofs::SectionRows::stubs_more))]
pub fn stub_bytes(alloc: Global, first: u32, count: u32) -> Result<Vec<u8>, AllocError>
    requires { first + count ≤ 32768 }
    ensures { IfOk result (λ bytes. bytes.items ≡ stub_bytes first count) }
{
    let mut bytes = Vec::new(alloc);
    for place in 0..count {
        put_stub(&mut bytes, first + place)?;
    }
    Ok(bytes)
}

/// Puts a stub: `LDW .D2T2 *+B14(4 * number),B31`, `NOP 4`, `B .S2 B31`, `NOP 5` (SPRU732).
fn put_stub(out: &mut Vec<u8>, number: u32) -> Result<(), AllocError>
    requires { number ≤ 32767 }
    ensures { OnOk result (out.new.items ≡ out.old.items ++ stub_row number) }
{
    let load = 0x0F80_006E + number * 256;
    put_words(out, false, &[load, 0x0000_6000, 0x007C_0362, 0x0000_8000])
}
