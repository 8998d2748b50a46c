ghost use Rattle.std.specs.Prelude.{◌≡◌, ◌+◌, ◌≤◌, length};
ghost use Rattle.c6x_spec.specs.Numbers.{half_at, word_at};

use byteorder::{BigEndian, ByteOrder, LittleEndian};

/// The number in the two bytes at `at`, the highest byte first where `big` is true.
#[tactic(auto, unfolding(c6x_spec::specs::Numbers::half_at))]
pub fn read_half(big: bool, bytes: &[u8], at: usize) -> u16
    requires { at + 2 ≤ length bytes.now }
    ensures { result ≡ half_at big bytes.now at }
{
    if big {
        BigEndian::read_u16(&bytes[at..])
    } else {
        LittleEndian::read_u16(&bytes[at..])
    }
}

/// The number in the four bytes at `at`, the highest byte first where `big` is true.
#[tactic(auto, unfolding(c6x_spec::specs::Numbers::word_at))]
pub fn read_word(big: bool, bytes: &[u8], at: usize) -> u32
    requires { at + 4 ≤ length bytes.now }
    ensures { result ≡ word_at big bytes.now at }
{
    if big {
        BigEndian::read_u32(&bytes[at..])
    } else {
        LittleEndian::read_u32(&bytes[at..])
    }
}
