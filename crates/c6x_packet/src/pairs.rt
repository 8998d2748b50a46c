ghost use Rattle.std.specs.Prelude.{◌≡◌};
ghost use Rattle.c6x_packet.specs.Rules.{some_pair};

use crate::crosses::have_other_registers;
use crate::rule::PairRule;
use crate::sides::have_one_side;
use crate::units::have_one_unit;
use c6x_isa::Instr;

/// Whether two of the instructions break the rule together.
pub fn has_pair(rule: PairRule, instrs: &[Instr]) -> bool
    ensures { result ≡ some_pair rule instrs.now }
{
    match rule {
        PairRule::Unit => have_one_unit(instrs),
        PairRule::Side => have_one_side(instrs),
        PairRule::Cross => have_other_registers(instrs),
    }
}
