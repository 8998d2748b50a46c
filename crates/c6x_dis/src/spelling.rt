ghost use Rattle.std.specs.Prelude.{◌≡◌, ◌≤◌, length};
ghost use Rattle.c6x_encoding.specs.Spelling.{IsValid};
ghost use Rattle.c6x_dis.specs.Reads.{IsReadBack};
ghost use Rattle.c6x_dis.specs.Shown.{shown};

use crate::conditions::put_condition;
use crate::operands::put_operands;
use crate::units::{mnemonic_for, put_unit, unit_for};
use c6x_asm_lines::mnemonic_name;
use c6x_base::Line;
use c6x_encoding::Instr;

/// The line of an instruction as the assembler reads it, the p bit aside (docs/ASSEMBLY.md).
#[tactic(auto, unfolding(crate::specs::Shown::shown_atoms), using(crate::proofs::Bytes::bytes_joined))]
pub fn show(instr: &Instr) -> Line
    requires { IsValid instr.now }
    ensures text { result ≡ shown instr.now }
    ensures short { length result ≤ 100 }
    ensures read { IsReadBack instr.now }
{
    let mut line = Line::new();
    put_condition(&mut line, instr.condition);
    line.push(mnemonic_name(mnemonic_for(instr.op)));
    line.push(b" ");
    put_unit(&mut line, unit_for(instr.op));
    put_operands(&mut line, instr.op);
    line
}
