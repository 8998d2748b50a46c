ghost use Rattle.std.specs.Prelude.{◌≡◌, ℤ, ◌<◌, ◌≤◌, ◌^◌, ◌+◌};
ghost use Rattle.c6x_spec.specs.Fields.{IsPatched};
ghost use Rattle.c6x_reloc.specs.Table.{row_of};
ghost use Rattle.c6x_reloc.specs.Value.{divides, field_of, fits, has_addend, quotient_of, sum_of, value_of};

use crate::inputs::Inputs;
use crate::kind_row::KindRow;
use crate::origin::Origin;
use crate::reloc_error::RelocError;
use crate::reloc_kind::RelocKind;
use crate::table::row;
use c6x_base::with_bits;

/// The bits of the kind's field as an unsigned number, 0 for a kind without a field. In this order:
/// `Addend` exactly where a GOT kind has an addend other than 0, `Align` exactly where a divided value
/// has a remainder, `Range` exactly where the quotient does not fit.
#[tactic(auto, unfolding(crate::specs::Value::row_value))]
pub fn value(kind: RelocKind, inputs: &Inputs) -> Result<u32, RelocError>
    ensures { result ≡ value_of kind inputs.now }
{
    let row = row(kind);
    if has_addend(row.origin, inputs.a) {
        return Err(RelocError::Addend);
    }
    let sum = sum(row.origin, inputs);
    if !divides(&row, sum) {
        return Err(RelocError::Align);
    }
    let quotient = quotient(&row, sum);
    if !fits(&row, quotient) {
        return Err(RelocError::Range);
    }
    Ok(field(&row, quotient))
}

/// The word with the kind's field set to `value`, and every other bit as it was.
pub fn patch(word: u32, kind: RelocKind, value: u32) -> u32
    requires field { 1 ≤ (row_of kind).width }
    requires fits { value < 2 ^ (row_of kind).width }
    ensures { IsPatched word (row_of kind).low (row_of kind).width value result }
{
    let row = row(kind);
    with_bits(word, row.low, row.width, value)
}

/// Whether a kind that names a GOT word has an addend.
#[tactic(auto, unfolding(crate::specs::Value::has_addend))]
fn has_addend(origin: Origin, addend: i32) -> bool
    ensures { result ≡ has_addend origin addend }
{
    match origin {
        Origin::Got => addend.cast_unsigned() != 0,
        Origin::Nothing
        | Origin::Absolute
        | Origin::Packet
        | Origin::Table
        | Origin::Index
        | Origin::Slot => false,
    }
}

/// The sum that the kind's value is made of, modulo 2^32.
#[tactic(auto, unfolding(crate::specs::Value::sum_of))]
fn sum(origin: Origin, inputs: &Inputs) -> u32
    ensures { result ≡ sum_of origin inputs.now }
{
    let moved = inputs.s.wrapping_add(inputs.a.cast_unsigned());
    match origin {
        Origin::Nothing => 0,
        Origin::Absolute => moved,
        Origin::Packet => moved.wrapping_sub(inputs.p - inputs.p % 32),
        Origin::Table => moved.wrapping_sub(inputs.b),
        Origin::Got => inputs.g.wrapping_sub(inputs.b),
        Origin::Index => inputs.index,
        Origin::Slot => inputs.s,
    }
}

/// Whether the sum is a multiple of what the row divides by.
#[tactic(auto, unfolding(crate::specs::Value::divides))]
fn divides(row: &KindRow, sum: u32) -> bool
    requires { row.now.step + row.now.skip ≤ 31 }
    ensures { result ≡ divides row.now sum }
{
    u64::from(sum) % (1u64 << row.step) == 0
}

/// The sum as a signed number, divided.
#[tactic(auto, unfolding(crate::specs::Value::quotient_of))]
fn quotient(row: &KindRow, sum: u32) -> i32
    requires { row.now.step + row.now.skip ≤ 31 }
    ensures { result ≡ quotient_of row.now sum }
{
    sum.cast_signed() >> row.step
}

/// Whether the quotient is within the row's bounds.
#[tactic(auto, unfolding(crate::specs::Value::fits))]
fn fits(row: &KindRow, quotient: i32) -> bool
    ensures { result ≡ fits row.now quotient }
{
    let quotient = i64::from(quotient);
    row.least <= quotient && quotient <= row.most
}

/// The field's bits of the quotient.
#[tactic(auto, unfolding(crate::specs::Value::field_of))]
fn field(row: &KindRow, quotient: i32) -> u32
    requires shifts { row.now.step + row.now.skip ≤ 31 }
    requires width { row.now.width ≤ 32 }
    ensures { result ≡ field_of row.now quotient }
{
    let bits = (quotient >> row.skip).cast_unsigned();
    (u64::from(bits) % (1u64 << row.width)) as u32
}
