ghost use Rattle.std.specs.Prelude.{◌≡◌, ℕ, List, map, IfOk};
ghost use Rattle.c6x_plan.specs.LinkPlans.{any_number, keyed_line, library_of, link_line, named_line};

use crate::number::number_in;
use crate::word::is_name;
use c6x_base::Name;
use std::alloc::{AllocError, Global};

/// What a line of a link plan means.
#[derive(Debug, Drop)]
pub enum LinkLine {
    /// The output is a shared object, or an executable.
    Output { library: bool },
    /// The module's DSBT index.
    Index(u32),
    /// The number of its table's slots.
    Table(u32),
    /// The symbol where a process begins.
    Entry(Name),
    /// The module's name for others.
    Soname(Name),
    /// A module that it needs.
    Needed(Name),
    /// The file of an object.
    Object(Name),
}

/// What a line of these words means, where it has a form.
#[tactic(auto, unfolding(crate::specs::LinkPlans::link_line))]
pub fn link_line(alloc: Global, words: &[&[u8]]) -> Result<Option<LinkLine>, AllocError>
    ensures { IfOk result (λ line. line ≡ link_line (map (λ word. word.now) words.now)) }
{
    match words {
        [key, word] => keyed_line(alloc, key, word),
        _ => Ok(None),
    }
}

/// What a line of two words means.
#[tactic(auto, unfolding(crate::specs::LinkPlans::keyed_line))]
fn keyed_line(alloc: Global, key: &[u8], word: &[u8]) -> Result<Option<LinkLine>, AllocError>
    ensures { IfOk result (λ line. line ≡ keyed_line key.now word.now) }
{
    if key == b"output".as_slice() {
        return Ok(library_of(word).map(|library| LinkLine::Output { library }));
    }
    if key == b"index".as_slice() {
        return Ok(any_number(word).map(|index| LinkLine::Index(index)));
    }
    if key == b"table".as_slice() {
        return Ok(any_number(word).map(|slots| LinkLine::Table(slots)));
    }
    if !is_name(word) {
        return Ok(None);
    }
    let name = Name::from_bytes(alloc, word)?;
    Ok(named_line(key, name))
}

/// What a line with a name means.
#[tactic(auto, unfolding(crate::specs::LinkPlans::named_line))]
fn named_line(key: &[u8], name: Name) -> Option<LinkLine>
    ensures { result ≡ named_line key.now name }
{
    if key == b"entry".as_slice() {
        Some(LinkLine::Entry(name))
    } else if key == b"soname".as_slice() {
        Some(LinkLine::Soname(name))
    } else if key == b"needed".as_slice() {
        Some(LinkLine::Needed(name))
    } else if key == b"object".as_slice() {
        Some(LinkLine::Object(name))
    } else {
        None
    }
}

/// Whether the output is a library.
fn library_of(word: &[u8]) -> Option<bool>
    ensures { result ≡ library_of word.now }
{
    if word == b"executable".as_slice() {
        Some(false)
    } else if word == b"library".as_slice() {
        Some(true)
    } else {
        None
    }
}

/// Any number of 32 bits.
fn any_number(word: &[u8]) -> Option<u32>
    ensures { result ≡ any_number word.now }
{
    number_in(word, 0, u32::MAX)
}
