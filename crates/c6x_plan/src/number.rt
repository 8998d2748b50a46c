ghost use Rattle.std.specs.Prelude.{◌≡◌, ℕ, ◌^◌, ◌<◌, ◌≤◌, length, IsTrue};
ghost use Rattle.std.specs.List.{list_all};
ghost use Rattle.c6x_plan.specs.Words.{is_digit, is_number, value_of, number_in};

/// The bytes are one to ten decimal digits.
#[tactic(auto, unfolding(crate::specs::Words::is_number))]
fn is_number(bytes: &[u8]) -> bool
    ensures value { result ≡ is_number bytes.now }
    ensures few { IsTrue result → length bytes.now ≤ 10 }
{
    1 <= bytes.len() && bytes.len() <= 10 && are_digits(bytes)
}

/// The bytes are decimal digits.
fn are_digits(bytes: &[u8]) -> bool
    ensures { result ≡ list_all is_digit bytes.now }
{
    bytes.iter().all(|byte| 48 <= *byte && *byte <= 57)
}

/// The number of these digits.
#[tactic(auto, unfolding(crate::specs::Words::value_of))]
fn value_of(digits: &[u8]) -> u64
    requires { length digits.now ≤ 10 }
    ensures { result ≡ value_of digits.now }
{
    let mut value = 0;
    for digit in digits {
        value = value * 10 + u64::from(digit.saturating_sub(b'0'));
    }
    value
}

/// The number of these digits, where it is one within the limits.
#[tactic(auto, unfolding(crate::specs::Words::number_in))]
pub fn number_in(digits: &[u8], least: u32, most: u32) -> Option<u32>
    ensures { result ≡ number_in least most digits.now }
{
    if !is_number(digits) {
        return None;
    }
    let value = value_of(digits);
    if u64::from(least) <= value && value <= u64::from(most) {
        Some(value as u32)
    } else {
        None
    }
}
