ghost use Rattle.std.specs.Prelude.{◌≡◌};
ghost use Rattle.std.specs.Str.{bytes_eq};
ghost use Rattle.c6x_asm_lines.specs.Bytes.{bytes_at};

/// The bytes of a word or a quoted text, by its offset and length in the text.
#[tactic(auto, unfolding(crate::specs::Bytes::bytes_at))]
pub fn bytes_at<'t>(text: &'t [u8], at: u32, len: u32) -> &'t [u8]
    ensures { result.now ≡ bytes_at text.now at len }
{
    let at = at as usize;
    let len = len as usize;
    if at + len <= text.len() {
        &text[at..at + len]
    } else {
        &[]
    }
}

/// Whether two texts have the same bytes.
pub fn same_bytes(a: &[u8], b: &[u8]) -> bool
    ensures { result ≡ bytes_eq a.now b.now }
{
    a == b
}
