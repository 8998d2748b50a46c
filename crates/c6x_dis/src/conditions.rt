ghost use Rattle.std.specs.Prelude.{◌≡◌, ◌+◌, ◌≤◌, ◌++◌, length};
ghost use Rattle.c6x_dis.specs.Atoms.{bytes_of};
ghost use Rattle.c6x_dis.specs.Shown.{condition_atoms, tested_word};

use c6x_base::Line;
use c6x_encoding::{Cond, CondReg};

fn tested_word(register: CondReg) -> &'static [u8]
    ensures is { result.now ≡ tested_word register }
    ensures short { length result.now ≤ 2 }
{
    match register {
        CondReg::B0 => b"B0",
        CondReg::B1 => b"B1",
        CondReg::B2 => b"B2",
        CondReg::A1 => b"A1",
        CondReg::A2 => b"A2",
        CondReg::A0 => b"A0",
    }
}

/// Puts a condition and a space: nothing where there is none.
pub fn put_condition(line: &mut Line, condition: Cond)
    requires { length line.old + 6 ≤ 256 }
    ensures is { line.new ≡ line.old ++ bytes_of (condition_atoms condition) }
    ensures short { length line.new ≤ length line.old + 6 }
{
    if let Cond::If { register, zero } = condition {
        line.push(if zero { b"[!" } else { b"[" });
        line.push(tested_word(register));
        line.push(b"] ");
    }
}
