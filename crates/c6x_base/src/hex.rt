ghost use Rattle.std.specs.Prelude.{◌≡◌, ◌<◌, ℕ};
ghost use Rattle.c6x_spec.specs.Printed.{hex_glyph, hex_8, hex_word as word_text};

/// A word as it is printed: `0x` and eight lower-case hexadecimal digits.
#[tactic(auto, unfolding(c6x_spec::specs::Printed::hex_8))]
pub fn hex_word(word: u32) -> [u8; 10]
    ensures { result ≡ word_text word }
{
    [
        b'0',
        b'x',
        glyph(word / 0x1000_0000 % 16),
        glyph(word / 0x0100_0000 % 16),
        glyph(word / 0x0010_0000 % 16),
        glyph(word / 0x0001_0000 % 16),
        glyph(word / 0x1000 % 16),
        glyph(word / 0x0100 % 16),
        glyph(word / 0x0010 % 16),
        glyph(word % 16),
    ]
}

/// The glyph of a hexadecimal digit.
fn glyph(digit: u32) -> u8
    requires { digit < 16 }
    ensures { result ≡ hex_glyph digit }
{
    if digit < 10 {
        b'0' + digit as u8
    } else {
        b'a' + (digit - 10) as u8
    }
}
