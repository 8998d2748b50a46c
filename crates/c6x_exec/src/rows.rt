ghost use Rattle.std.specs.Prelude.{◌≡◌, ◌≤◌, length, take, All};
ghost use Rattle.c6x_encoding.specs.Rows.{FitsEffects};
ghost use Rattle.c6x_encoding.specs.Spelling.{IsValid};
ghost use Rattle.c6x_machine.specs.Packet.{rows_of};

use c6x_isa::{Effects, Instr, Regs, effects};
use std::marker::Model;

/// What the instructions of a packet do: a row for each.
#[derive(Drop)]
pub(crate) struct Rows {
    rows: [Effects; 8],
    count: usize,
}

/// Seen as the list of its rows.
impl Model for Rows {
    ghost use Rattle.std.specs.Prelude.{◌≡◌, ◌≤◌, List, length, take};
    ghost use Rattle.c6x_encoding.specs.declared.effect.Effects.{Effects};

    ghost Value = { List Effects };

    ghost view = { λ r. take r.count r.rows };

    ghost invariant = { λ r. (r.count ≤ 8) × (length r.rows ≡ 8) };
}

impl Rows {
    /// The first `count` of these rows.
    fn of(rows: [Effects; 8], count: usize) -> Rows
        requires { count ≤ 8 }
        ensures { result ≡ take count rows }
    {
        Rows { rows, count }
    }

    /// The rows.
    pub(crate) fn as_slice(&self) -> &[Effects]
        ensures value { result.now ≡ self.now }
        ensures few { length self.now ≤ 8 }
    {
        &self.rows[..self.count]
    }
}

/// What stands behind the last row.
const NOTHING: Effects = Effects {
    result: None,
    update: None,
    access: None,
    target: None,
    wait: 0,
};

/// What the instructions of a packet at an address do, which ends before `next`.
pub(crate) fn rows_at(instrs: &[Instr], at: u32, next: u32, registers: &Regs) -> Rows
    requires few { length instrs.now ≤ 8 }
    requires valid { All IsValid instrs.now }
    ensures value { result ≡ rows_of instrs.now at next registers.now }
    ensures fits { All FitsEffects result }
{
    let mut rows = [NOTHING; 8];
    let mut from = at;
    for place in 0..instrs.len() {
        rows[place] = effects(&instrs[place], from, next, registers);
        from = from.wrapping_add(4);
    }
    Rows::of(rows, instrs.len())
}
