ghost use Rattle.std.specs.Prelude.{◌≡◌, ◌<◌, ◌≤◌, length};
ghost use Rattle.std.specs.List.{prefix_len};
ghost use Rattle.c6x_lex.specs.Forms.{is_digit, is_punctuator, is_blank, starts_word, comment_len};
ghost use Rattle.c6x_lex.specs.Classes.{is_of};

/// The bytes that go on in a token or comment.
#[derive(Clone, Copy)]
pub enum Class {
    Word,
    Digit,
    HexDigit,
    Text,
    Line,
}

pub fn is_digit(b: u8) -> bool
    ensures { result ≡ is_digit b }
{
    b >= b'0' && b <= b'9'
}

pub fn starts_word(b: u8) -> bool
    ensures { result ≡ starts_word b }
{
    matches!(b, b'A'..=b'Z' | b'a'..=b'z' | b'_' | b'.' | b'$')
}

pub fn is_blank(b: u8) -> bool
    ensures { result ≡ is_blank b }
{
    b == b' ' || b == b'\t'
}

pub fn is_punctuator(b: u8) -> bool
    ensures { result ≡ is_punctuator b }
{
    matches!(
        b,
        b':' | b',' | b'[' | b']' | b'(' | b')' | b'*' | b'+' | b'-' | b'!' | b'%'
    )
}

fn is_of(class: Class, b: u8) -> bool
    ensures { result ≡ is_of class b }
{
    match class {
        Class::Word => starts_word(b) || is_digit(b),
        Class::Digit => is_digit(b),
        Class::HexDigit => is_digit(b) || matches!(b, b'A'..=b'F' | b'a'..=b'f'),
        Class::Text => b != b'"' && b != b'\n',
        Class::Line => b != b'\n',
    }
}

/// How many bytes at the front are of the class.
pub fn front_len(class: Class, bytes: &[u8]) -> usize
    ensures front { result ≡ prefix_len (is_of class) bytes.now }
    ensures within { result ≤ length bytes.now }
{
    let mut n = 0;
    for b in bytes {
        if !is_of(class, *b) {
            return n;
        }
        n += 1;
    }
    n
}

/// How many of the bytes behind a `;` belong to its comment.
#[tactic(auto, unfolding(crate::specs::Forms::comment_len))]
pub fn comment_len(bytes: &[u8]) -> usize
    ensures len { result ≡ comment_len bytes.now }
    ensures within { result ≤ length bytes.now }
{
    let n = front_len(Class::Line, bytes);
    if n < bytes.len() && n > 0 && bytes[n - 1] == b'\r' {
        n - 1
    } else {
        n
    }
}
