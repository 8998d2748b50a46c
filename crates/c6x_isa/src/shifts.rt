ghost use Rattle.std.specs.Prelude.{◌≡◌, ℕ};
ghost use Rattle.c6x_encoding.specs.Values.{shifted_left, shifted_right, shifted_signed};

/// The value shifted left by the low six bits of the count; nothing is left from 32 on.
pub fn shift_left(value: u32, count: u32) -> u32
    ensures { result ≡ shifted_left value count }
{
    let by = count % 64;
    if by < 32 { value << by } else { 0 }
}

/// The value shifted right with zeros.
pub fn shift_right(value: u32, count: u32) -> u32
    ensures { result ≡ shifted_right value count }
{
    (u64::from(value) >> (count % 64)) as u32
}

/// The value shifted right with its sign.
pub fn shift_signed(value: u32, count: u32) -> u32
    ensures { result ≡ shifted_signed value count }
{
    ((i64::from(value.cast_signed()) >> (count % 64)) as i32).cast_unsigned()
}
