ghost use Rattle.std.specs.Prelude.{◌≡◌, ◌||◌, Option, Some, None};
ghost use Rattle.c6x_base.specs.declared.side.Side.{Side};
ghost use Rattle.c6x_packet.specs.Rules.{sides_meet, some_pair, value_side_of};
ghost use Rattle.c6x_packet.specs.Taken.{is_side_taken};
ghost use Rattle.c6x_packet.specs.declared.rule.PairRule.TheVariants.{Side as SideRule};

use crate::units::side_number;
use c6x_base::Side;
use c6x_isa::{Instr, Op};

/// Whether two of the instructions load or store values of one side.
pub fn have_one_side(instrs: &[Instr]) -> bool
    ensures { result ≡ some_pair SideRule instrs.now }
{
    let mut taken = [false; 2];
    for instr in instrs {
        if take_side(&mut taken, instr.op) {
            return true;
        }
    }
    false
}

/// Takes the side of the value of a load or store, and tells whether it was taken before.
fn take_side(taken: &mut [bool; 2], op: Op) -> bool
    ensures before { result ≡ is_side_taken taken.old (value_side_of op) }
    ensures after { (side : Option Side) → is_side_taken taken.new side ≡ (is_side_taken taken.old side || sides_meet (value_side_of op) side) }
{
    match value_side(op) {
        Some(side) => {
            let number = side_number(side);
            let before = taken[number];
            taken[number] = true;
            before
        }
        None => false,
    }
}

/// The side of the register that is loaded or stored.
fn value_side(op: Op) -> Option<Side>
    ensures { result ≡ value_side_of op }
{
    match op {
        Op::Short { value_side, .. } | Op::Long { value_side, .. } => Some(value_side),
        _ => None,
    }
}
