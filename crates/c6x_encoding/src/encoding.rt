ghost use Rattle.std.specs.Prelude.{◌↔◌, ℕ, IsTrue};
ghost use Rattle.c6x_encoding.specs.Spelling.{Spells, IsValid};

use crate::instr::Instr;
use crate::words::word_of;

/// Whether some word spells the instruction: its parts are in their ranges, its operation is one of
/// its unit, and it has a condition and a cross path only where its form has them.
pub fn is_valid(instr: &Instr) -> bool
    ensures { IsTrue result ↔ IsValid instr.now }
{
    word_of(instr).is_some()
}

/// The one word that spells the instruction (SPRU732, "Instruction Descriptions").
pub fn encode(instr: &Instr) -> u32
    requires { IsValid instr.now }
    ensures { Spells instr.now result }
{
    match word_of(instr) {
        Some(word) => word,
        None => unreachable!(),
    }
}
