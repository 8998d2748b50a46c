ghost use Rattle.std.specs.Prelude.{◌≡◌, ◌+◌, ◌-◌, ◌≤◌, List, ◌∷◌, ◌++◌, length, replicate, OnOk, vec_len};
ghost use Rattle.c6x_elf_headers.specs.Laid.{laid, Part};

use std::alloc::AllocError;

/// Puts zeros up to `at`, and then the bytes: what the parts `rest` make behind these is then what they make
/// behind this part.
#[tactic(auto, using(crate::proofs::Layouts::laid_more))]
pub fn put_part(out: &mut Vec<u8>, at: usize, bytes: &[u8]) -> Result<(), AllocError>
    requires { vec_len out.old ≤ at }
    ensures laid { OnOk result ((rest : List Part) → out.new.items ++ laid (vec_len out.new) rest ≡ out.old.items ++ laid (vec_len out.old) (record { at = at; bytes = bytes.now } ∷ rest)) }
    ensures end { OnOk result (vec_len out.new ≡ at + length bytes.now) }
{
    pad(out, at)?;
    out.extend_from_slice(bytes)?;
    Ok(())
}

/// Puts zeros up to `at`.
pub fn pad(out: &mut Vec<u8>, at: usize) -> Result<(), AllocError>
    requires { vec_len out.old ≤ at }
    ensures zeros { OnOk result (out.new.items ≡ out.old.items ++ replicate (at - vec_len out.old) 0) }
    ensures end { OnOk result (vec_len out.new ≡ at) }
{
    let from = out.len();
    for k in from..at {
        out.push(0)?;
    }
    Ok(())
}
