ghost use Rattle.std.specs.Prelude.{◌≡◌, ◌||◌, ℕ, Option, Some, None, false};
ghost use Rattle.c6x_base.specs.declared.side.Side.{Side};
ghost use Rattle.c6x_packet.specs.Rules.{cross_of, crosses_meet, some_pair, where_crossed};
ghost use Rattle.c6x_packet.specs.Taken.{is_other, is_other_read};
ghost use Rattle.c6x_packet.specs.declared.rule.PairRule.TheVariants.{Cross as CrossRule};

use crate::units::side_number;
use c6x_base::Side;
use c6x_isa::{Instr, Op};

/// Whether two of the instructions of a side read different registers through its cross path.
pub fn have_other_registers(instrs: &[Instr]) -> bool
    ensures { result ≡ some_pair CrossRule instrs.now }
{
    let mut read = [None; 2];
    for instr in instrs {
        if read_crossed(&mut read, instr.op) {
            return true;
        }
    }
    false
}

/// Reads the register of an operation through the cross path of its side, and tells whether another one was read there
/// before.
fn read_crossed(read: &mut [Option<u8>; 2], op: Op) -> bool
    ensures before { result ≡ is_other_read read.old (cross_of op) }
    ensures after { result ≡ false → (cross : Option (Side × ℕ)) → is_other_read read.new cross ≡ (is_other_read read.old cross || crosses_meet (cross_of op) cross) }
{
    match crossed(op) {
        Some((side, number)) => {
            let place = side_number(side);
            let before = is_other(read[place], number);
            read[place] = Some(number);
            before
        }
        None => false,
    }
}

/// Whether a register that was read is another one than this.
fn is_other(read: Option<u8>, number: u8) -> bool
    ensures { result ≡ is_other read number }
{
    match read {
        Some(first) => first != number,
        None => false,
    }
}

/// The side of an operation that reads through the cross path, and the register that it reads.
fn crossed(op: Op) -> Option<(Side, u8)>
    ensures { result ≡ cross_of op }
{
    match op {
        Op::Two {
            cross,
            side,
            second,
            ..
        } => read_across(cross, side, second),
        Op::BranchReg { cross, source } | Op::BranchRegNop { cross, source, .. } => {
            read_across(cross, Side::B, source)
        }
        _ => None,
    }
}

fn read_across(cross: bool, side: Side, number: u8) -> Option<(Side, u8)>
    ensures { result ≡ where_crossed cross side number }
{
    if cross { Some((side, number)) } else { None }
}
