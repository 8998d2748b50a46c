ghost use Rattle.std.specs.Prelude.{◌≡◌, ◌≤◌, ℕ};
ghost use Rattle.c6x_encoding.specs.Rows.{condition_holds, other_side, read_side, tested, wait_of};
ghost use Rattle.c6x_encoding.specs.Bounds.{FitsOp};

use c6x_base::Side;
use c6x_encoding::{Cond, CondReg, Op, Regs};

/// Whether the condition holds with these register values.
pub fn holds(condition: Cond, regs: &Regs) -> bool
    ensures { result ≡ condition_holds condition regs.now }
{
    match condition {
        Cond::Always => true,
        Cond::If { register, zero } => (test(register, regs) == 0) == zero,
    }
}

/// The value of a condition's register.
fn test(register: CondReg, regs: &Regs) -> u32
    ensures { result ≡ tested regs.now register }
{
    match register {
        CondReg::B0 => regs.get(Side::B, 0),
        CondReg::B1 => regs.get(Side::B, 1),
        CondReg::B2 => regs.get(Side::B, 2),
        CondReg::A1 => regs.get(Side::A, 1),
        CondReg::A2 => regs.get(Side::A, 2),
        CondReg::A0 => regs.get(Side::A, 0),
    }
}

/// The side whose register an instruction of this side reads, through the cross path or not.
pub fn read_from(side: Side, cross: bool) -> Side
    ensures { result ≡ read_side side cross }
{
    match (side, cross) {
        (Side::A, false) | (Side::B, true) => Side::A,
        (Side::A, true) | (Side::B, false) => Side::B,
    }
}

/// The cycles after the instruction's own before the next packet issues.
pub fn wait(op: Op) -> u8
    requires { FitsOp op }
    ensures cycles { result ≡ wait_of op }
    ensures short { result ≤ 8 }
{
    match op {
        Op::Callp { .. } => 5,
        Op::BranchNop { wait, .. } | Op::BranchRegNop { wait, .. } | Op::AddKpc { wait, .. } =>
            wait,
        Op::Nop { cycles } => cycles - 1,
        _ => 0,
    }
}
