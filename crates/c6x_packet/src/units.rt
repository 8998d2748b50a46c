ghost use Rattle.std.specs.Prelude.{◌≡◌, ◌<◌, ◌||◌, ℕ, Option, Some, None};
ghost use Rattle.c6x_base.specs.declared.side.Side.{Side};
ghost use Rattle.c6x_encoding.specs.declared.unit_kind.UnitKind.{UnitKind};
ghost use Rattle.c6x_packet.specs.Rules.{some_pair, unit_of, units_meet};
ghost use Rattle.c6x_packet.specs.Taken.{kind_number, side_number, unit_number, is_unit_taken};
ghost use Rattle.c6x_packet.specs.declared.rule.PairRule.TheVariants.{Unit as UnitRule};

use c6x_base::Side;
use c6x_isa::{Instr, Op, UnitKind};

/// Whether two of the instructions use one unit.
pub fn have_one_unit(instrs: &[Instr]) -> bool
    ensures { result ≡ some_pair UnitRule instrs.now }
{
    let mut taken = [false; 8];
    for instr in instrs {
        if take_unit(&mut taken, instr.op) {
            return true;
        }
    }
    false
}

/// Takes the unit of an operation, and tells whether it was taken before.
fn take_unit(taken: &mut [bool; 8], op: Op) -> bool
    ensures before { result ≡ is_unit_taken taken.old (unit_of op) }
    ensures after { (unit : Option (UnitKind × Side)) → is_unit_taken taken.new unit ≡ (is_unit_taken taken.old unit || units_meet (unit_of op) unit) }
{
    match unit(op) {
        Some((kind, side)) => {
            let number = unit_number(kind, side);
            let before = taken[number];
            taken[number] = true;
            before
        }
        None => false,
    }
}

/// The number of a unit among the eight.
fn unit_number(kind: UnitKind, side: Side) -> usize
    ensures value { result ≡ unit_number (kind, side) }
    ensures below { result < 8 }
{
    kind_number(kind) + side_number(side)
}

/// The number of the first of the two units of a kind.
fn kind_number(kind: UnitKind) -> usize
    ensures value { result ≡ kind_number kind }
    ensures below { result < 7 }
{
    match kind {
        UnitKind::L => 0,
        UnitKind::S => 2,
        UnitKind::D => 4,
        UnitKind::M => 6,
    }
}

/// The number of a side.
pub fn side_number(side: Side) -> usize
    ensures value { result ≡ side_number side }
    ensures below { result < 2 }
{
    match side {
        Side::A => 0,
        Side::B => 1,
    }
}

/// The unit that an operation uses.
fn unit(op: Op) -> Option<(UnitKind, Side)>
    ensures { result ≡ unit_of op }
{
    match op {
        Op::Two { unit, side, .. } => Some((unit, side)),
        Op::Move { side, .. }
        | Op::Branch { side, .. }
        | Op::Callp { side, .. }
        | Op::BranchNop { side, .. } => Some((UnitKind::S, side)),
        Op::BranchReg { .. } | Op::BranchRegNop { .. } | Op::AddKpc { .. } => {
            Some((UnitKind::S, Side::B))
        }
        Op::Nop { .. } => None,
        Op::Short { unit_side, .. } => Some((UnitKind::D, unit_side)),
        Op::Long { .. } => Some((UnitKind::D, Side::B)),
    }
}
