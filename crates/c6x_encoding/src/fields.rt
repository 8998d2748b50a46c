ghost use Rattle.std.specs.Prelude.{◌≡◌, ℕ, ◌+◌, ◌*◌, ◌^◌, ◌≤◌, nat_lt, if◌then◌else◌};
ghost use Rattle.c6x_encoding.specs.Encoded.{joined_fields, widths};

/// The word whose fields, from its top bit down, have these widths and values; None where a value
/// is too great for its field.
#[tactic(auto, unfolding(crate::specs::Encoded::joined_fields))]
pub fn join(fields: &[(u32, u32)]) -> Option<u32>
    requires { widths fields.now ≤ 32 }
    ensures { result ≡ joined_fields fields.now }
{
    let mut word = 0u64;
    for field in fields {
        word = put_below(word, field.0, field.1)?;
    }
    Some(word as u32)
}

/// The number with a field of this width and value below it.
fn put_below(number: u64, width: u32, value: u32) -> Option<u64>
    requires narrow { width ≤ 32 }
    requires fits { (number + 1) * 2 ^ width ≤ 2 ^ 32 }
    ensures { result ≡ (if nat_lt value (2 ^ width) then Some (number * 2 ^ width + value) else None) }
{
    if u64::from(value) < 1u64 << width {
        Some((number << width) + u64::from(value))
    } else {
        None
    }
}
