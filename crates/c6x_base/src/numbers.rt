ghost use Rattle.std.specs.Prelude.{◌≡◌, ℕ, ◌+◌, ◌-◌, ◌*◌, ◌/◌, ◌%◌, ◌^◌, ◌<◌, ◌≤◌};
ghost use Rattle.c6x_spec.specs.Fields.{bits_of, IsPatched, signed_of};

/// The `n` bits of a word from bit `lo` on.
pub fn bits(word: u32, lo: u32, n: u32) -> u32
    requires some { 1 ≤ n }
    requires within { lo + n ≤ 32 }
    ensures { result ≡ bits_of word lo n }
{
    below(word >> lo, n)
}

/// The word with the `n` bits from bit `lo` on set to `v`, and every other bit as it was.
pub fn with_bits(word: u32, lo: u32, n: u32, v: u32) -> u32
    requires some { 1 ≤ n }
    requires within { lo + n ≤ 32 }
    requires fits { v < 2 ^ n }
    ensures { IsPatched word lo n v result }
{
    above(word, lo + n) | (v << lo) | below(word, lo)
}

/// The signed number that `n` bits spell in two's complement.
pub fn sign_extend(v: u32, n: u32) -> i32
    requires some { 1 ≤ n }
    requires within { n ≤ 32 }
    requires fits { v < 2 ^ n }
    ensures { result ≡ signed_of n v }
{
    if v < 1 << (n - 1) {
        v as i32
    } else {
        (i64::from(v) - (1 << n)) as i32
    }
}

/// The bits of a word below bit `at`.
fn below(word: u32, at: u32) -> u32
    requires { at ≤ 32 }
    ensures { result ≡ word % 2 ^ at }
{
    word & low_mask(at)
}

/// The bits of a word from bit `at` on, in their places.
fn above(word: u32, at: u32) -> u32
    requires { at ≤ 32 }
    ensures { result ≡ word / 2 ^ at * 2 ^ at }
{
    if at == 32 { 0 } else { word >> at << at }
}

/// The word whose bits below bit `at` are set.
fn low_mask(at: u32) -> u32
    requires { at ≤ 32 }
    ensures { result ≡ 2 ^ at - 1 }
{
    if at == 32 { u32::MAX } else { (1 << at) - 1 }
}
