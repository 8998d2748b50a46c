ghost use Rattle.std.specs.Prelude.{◌≡◌, true, IfOk, MatchOption, None, Option, map};
ghost use Rattle.std.specs.List.{list_all};
ghost use Rattle.c6x_cli_words.specs.Requests.{IsReading, WordsHaveOneReading};
ghost use Rattle.c6x_cli_words.specs.Told.{begins_plain, is_known, starts_plain};
ghost use Rattle.c6x_cli_words.specs.declared.request.Request.{Request as AskedRequest};

use crate::asking::request_in;
use crate::grammar::matches_in;
use crate::request::Request;
use c6x_base::Name;
use std::alloc::{AllocError, Global};
use std::str;

/// What the words ask for. `None` exactly where they have no reading.
pub fn parse_words(alloc: Global, words: Vec<Name>) -> Result<Option<Request>, AllocError>
    ensures { IfOk result (IsReading words.items) }
{
    match texts_of(alloc, &words)? {
        Some(texts) => read(alloc, texts.as_slice()),
        None => Ok(None),
    }
}

/// The words as texts, where each is text and may stand among this command's words: clap takes more than these.
fn texts_of<'a>(alloc: Global, words: &'a Vec<Name>) -> Result<Option<Vec<&'a str>>, AllocError>
    ensures { IfOk result (λ texts. MatchOption texts (IsReading words.entry.now.items None)
        (λ texts. (map (λ w. w.now) texts.items ≡ words.entry.now.items) × (list_all is_known words.entry.now.items ≡ true))) }
{
    let mut texts = Vec::new(alloc);
    for word in words {
        let Ok(text) = str::from_utf8(word.as_bytes()) else {
            return Ok(None);
        };
        if !is_known(text.as_bytes()) {
            return Ok(None);
        }
        texts.push(text)?;
    }
    Ok(Some(texts))
}

/// What clap reads in the words, where the first is no option.
fn read(alloc: Global, words: &[&str]) -> Result<Option<Request>, AllocError>
    requires { list_all is_known (map (λ w. w.now) words.now) ≡ true }
    ensures { IfOk result (IsReading (map (λ w. w.now) words.now)) }
{
    if !starts_plain(words) {
        return Ok(None);
    }
    let found = matches_in(alloc, words)?;
    match found {
        Some(matches) => request_in(alloc, &matches),
        None => Ok(None),
    }
}

/// Whether there is a first word, and it begins with no dash.
fn starts_plain(words: &[&str]) -> bool
    ensures { result ≡ starts_plain (map (λ w. w.now) words.now) }
{
    match words {
        [first, ..] => begins_plain(first.as_bytes()),
        [] => false,
    }
}

/// Whether a word begins with no dash.
fn begins_plain(word: &[u8]) -> bool
    ensures { result ≡ begins_plain word.now }
{
    match word {
        [first, ..] => *first != b'-',
        [] => true,
    }
}

/// Whether a word begins with no dash, or is an option of this command.
#[tactic(auto, unfolding(crate::specs::Told::is_known))]
fn is_known(word: &[u8]) -> bool
    ensures { result ≡ is_known word.now }
{
    begins_plain(word)
        || word == b"--policy".as_slice()
        || word == b"--seed".as_slice()
        || word == b"--turns".as_slice()
}

/// Words have one reading.
pub fn words_have_one_reading()
    ensures { WordsHaveOneReading }
{}
