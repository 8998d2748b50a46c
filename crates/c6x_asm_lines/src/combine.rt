ghost use Rattle.std.specs.Prelude.{◌≡◌, ◌≤◌};
ghost use Rattle.c6x_asm_lines.specs.Rules.{number_of, lower, lowest, both};

use crate::rule::AsmRule;

fn number_of(rule: AsmRule) -> u8
    ensures { result ≡ number_of rule }
{
    match rule {
        AsmRule::BadByte => 1,
        AsmRule::Syntax => 2,
        AsmRule::UnknownWord => 3,
        AsmRule::Operand => 4,
        AsmRule::Range => 5,
        AsmRule::Packet => 6,
        AsmRule::DuplicateLabel => 7,
        AsmRule::NoSection => 8,
        AsmRule::Large => 9,
    }
}

/// The rule with the lower number.
#[tactic(auto, unfolding(crate::specs::Rules::lower))]
pub fn lower(a: AsmRule, b: AsmRule) -> AsmRule
    ensures { result ≡ lower a b }
{
    if number_of(a) <= number_of(b) { a } else { b }
}

/// The lower of two rules, where there are two.
pub fn lowest(a: Option<AsmRule>, b: Option<AsmRule>) -> Option<AsmRule>
    ensures { result ≡ lowest a b }
{
    match (a, b) {
        (None, other) => other,
        (Some(a), None) => Some(a),
        (Some(a), Some(b)) => Some(lower(a, b)),
    }
}

/// Both values; where both break a rule, the lower one.
pub fn both<T: Copy, U: Copy>(
    a: Result<T, AsmRule>,
    b: Result<U, AsmRule>,
) -> Result<(T, U), AsmRule>
    ensures { result ≡ both a b }
{
    match (a, b) {
        (Ok(a), Ok(b)) => Ok((a, b)),
        (Ok(_), Err(rule)) => Err(rule),
        (Err(rule), Ok(_)) => Err(rule),
        (Err(a), Err(b)) => Err(lower(a, b)),
    }
}
