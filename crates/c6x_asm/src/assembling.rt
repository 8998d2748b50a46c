ghost use Rattle.std.specs.Prelude.{◌^◌, false, ◌<◌, length, IfOk};
ghost use Rattle.c6x_elf.specs.Form.{IsTidy};
ghost use Rattle.c6x_asm.specs.States.{state_of};
ghost use Rattle.c6x_asm.specs.Meaning.{IsObjectOf, Refuses};
ghost use Rattle.c6x_asm.specs.Objects.{Answers, assembled};

use crate::asm_error::AsmError;
use crate::reading::read;
use c6x_asm_object::file_of;
use c6x_elf::File;
use std::alloc::Global;

/// The object file of a text, which is tidy, or the first rule that the text breaks: A1 before all
/// others, then that of the lowest line, and of one line that with the lowest number.
#[tactic(auto, unfolding(crate::specs::Objects::assembled), using(crate::proofs::Tidiness::object_tidy, crate::proofs::Meant::object_meant, crate::proofs::Meant::told_refusal))]
pub fn assemble(alloc: Global, text: &[u8]) -> Result<File, AsmError>
    requires { length text.now < 2 ^ 32 }
    ensures is { Answers result (assembled text.now) }
    ensures meant { IfOk result (IsObjectOf text.now) }
    ensures refuses { Refuses text.now result }
    ensures tidy { IfOk result (IsTidy false) }
{
    let object = read(alloc, text)?;
    let file = file_of(
        alloc,
        text,
        object.sections.as_slice(),
        object.symbols.list.as_slice(),
    )?;
    Ok(file)
}
