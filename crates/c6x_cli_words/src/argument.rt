ghost use Rattle.std.specs.Prelude.{◌≡◌};
ghost use Rattle.std.specs.Str.{is_utf8};
ghost use Rattle.c6x_cli_words.specs.Arguments.{is_positional, kind_named};

use c6x_ports::Kind;
use std::str;

/// The kind of policies that a word names.
#[tactic(auto, unfolding(crate::specs::Arguments::kind_named))]
pub(crate) fn kind_named(word: &[u8]) -> Option<Kind>
    ensures { result ≡ kind_named word.now }
{
    if word == b"round".as_slice() {
        Some(Kind::Round)
    } else if word == b"last".as_slice() {
        Some(Kind::Last)
    } else if word == b"drawn".as_slice() {
        Some(Kind::Drawn)
    } else if word == b"other".as_slice() {
        Some(Kind::Other)
    } else {
        None
    }
}

/// Whether a word may stand for a file: it is text, is not empty and is no option.
#[tactic(auto, unfolding(crate::specs::Arguments::is_positional))]
pub(crate) fn is_file_name(word: &[u8]) -> bool
    ensures { result ≡ is_positional word.now }
{
    !word.is_empty() && word[0] != b'-' && is_text(word)
}

/// Whether the bytes are UTF-8.
fn is_text(word: &[u8]) -> bool
    ensures { result ≡ is_utf8 word.now }
{
    match str::from_utf8(word) {
        Ok(_) => true,
        Err(_) => false,
    }
}
