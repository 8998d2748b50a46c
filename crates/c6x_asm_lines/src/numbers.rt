ghost use Rattle.std.specs.Prelude.{◌≡◌, ◌^◌, ◌<◌, ◌≤◌, IfOk};
ghost use Rattle.c6x_asm_lines.specs.Numbers.{is_within, number_bits, number_in};

use crate::number::Number;
use crate::range::Range;
use crate::rule::AsmRule;

fn is_within(range: Range, negative: bool, size: u32) -> bool
    ensures { result ≡ is_within range negative size }
{
    if negative {
        size <= range.below && range.least == 0
    } else {
        range.least <= size && size <= range.most
    }
}

fn number_bits(modulus: u64, negative: bool, size: u32) -> u32
    requires some { 1 ≤ modulus }
    requires few { modulus ≤ 2 ^ 32 }
    ensures bits { result ≡ number_bits modulus negative size }
    ensures fits { size < modulus → result < modulus }
    ensures zero { size ≡ 0 → result ≡ 0 }
{
    if negative {
        (modulus.saturating_sub(u64::from(size)) % modulus) as u32
    } else {
        size
    }
}

/// The bits of a number; `Range` where it is out of its range or no multiple.
#[tactic(auto, unfolding(crate::specs::Numbers::number_in))]
pub fn number_in(range: Range, number: Number) -> Result<u32, AsmRule>
    requires step { 1 ≤ range.step }
    requires some { 1 ≤ range.modulus }
    requires few { range.modulus ≤ 2 ^ 32 }
    ensures bits { result ≡ number_in range number }
    ensures fits { range.most < range.modulus → range.below < range.modulus → IfOk result (λ bits. bits < range.modulus) }
    ensures most { range.below ≡ 0 → IfOk result (λ bits. bits ≤ range.most) }
{
    match number.size {
        None => Err(AsmRule::Range),
        Some(size) => {
            if is_within(range, number.negative, size) && size % range.step == 0 {
                Ok(number_bits(range.modulus, number.negative, size))
            } else {
                Err(AsmRule::Range)
            }
        }
    }
}
