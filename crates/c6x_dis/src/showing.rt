ghost use Rattle.std.specs.Prelude.{◌≡◌, ◌≤◌, ℕ, length};
ghost use Rattle.c6x_encoding.specs.Spelling.{IsValid, Spells};
ghost use Rattle.c6x_dis.specs.Reads.{IsReadBack};
ghost use Rattle.c6x_dis.specs.Shown.{shown};
ghost use Rattle.c6x_dis.specs.Words.{AssemblesTo};

use crate::spelling::show as line_of;
use c6x_base::Line;
use c6x_encoding::Instr;

/// The line of an instruction as the assembler reads it, the p bit aside (docs/ASSEMBLY.md).
pub fn show(instr: &Instr) -> Line
    requires { IsValid instr.now }
    ensures text { result ≡ shown instr.now }
    ensures short { length result ≤ 100 }
    ensures read { IsReadBack instr.now }
    ensures assembled { (word : ℕ) → Spells instr.now word → AssemblesTo result word }
{
    line_of(instr)
}
