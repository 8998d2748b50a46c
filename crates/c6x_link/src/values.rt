ghost use Rattle.std.specs.Prelude.{◌≡◌, ◌-◌, ◌++◌, false, IfOk, OnOk, length, map};
ghost use Rattle.c6x_elf.specs.Rows.{word_row};
ghost use Rattle.c6x_layout.specs.Dynamics.{is_filled_word};
ghost use Rattle.c6x_layout.specs.Layouts.{file_end, table_at};
ghost use Rattle.c6x_layout.specs.Regions.{moves};
ghost use Rattle.c6x_link.specs.Images.{data_image, value_word, value_words};
ghost use Rattle.c6x_link.specs.Sections.{one_of};
ghost use Rattle.c6x_link.specs.Worked.{IsWorkedOut, laying_in};

use crate::address::wanted_address;
use crate::images::data_with;
use crate::link_value::Link;
use c6x_dsbt::{Wanted, Words};
use c6x_elf::put_words;
use c6x_symbols::Region;
use std::alloc::{AllocError, Global};

/// Adds what is there.
fn put_one(list: &mut Vec<Wanted>, one: Option<Wanted>) -> Result<(), AllocError>
    ensures { OnOk result (list.new.items ≡ list.old.items ++ one_of one) }
{
    match one {
        Some(wanted) => list.push(wanted).map_err(AllocError::from),
        None => Ok(()),
    }
}

/// What has a value word, in order.
#[tactic(auto, using(crate::proofs::Listed::taken_more, crate::proofs::Listed::taken_all))]
pub fn word_list(alloc: Global, words: &Words) -> Result<Vec<Wanted>, AllocError>
    ensures { IfOk result (λ list. list.items ≡ words.now) }
{
    let mut list = Vec::new(alloc);
    for place in 0..words.len() {
        put_one(&mut list, words.get(place))?;
    }
    Ok(list)
}

/// Whether the loader fills the value word of a symbol.
#[tactic(auto, unfolding(c6x_layout::specs::Dynamics::is_filled_word))]
pub fn is_filled(link: &Link, wanted: Wanted) -> bool
    ensures { result ≡ is_filled_word link.now.objects link.now.bindings wanted }
{
    match link.wanted_region(wanted) {
        Region::Text | Region::Data | Region::Import => true,
        Region::Absolute => false,
    }
}

/// The value word of a symbol in the file.
#[tactic(auto, unfolding(crate::specs::Images::value_word))]
fn value_word(link: &Link, wanted: Wanted) -> u32
    ensures { result ≡ value_word link.now wanted }
{
    if is_filled(link, wanted) {
        0
    } else {
        wanted_address(link, wanted)
    }
}

/// The value words in the file.
#[tactic(auto, unfolding(crate::specs::Images::value_words), using(c6x_layout::proofs::Rows::row_more))]
fn value_words(alloc: Global, link: &Link) -> Result<Vec<u32>, AllocError>
    ensures { IfOk result (λ words. words.items ≡ value_words link.now) }
{
    let list = word_list(alloc, &link.tables().words)?;
    let mut words = Vec::new(alloc);
    for wanted in &list {
        words.push(value_word(link, *wanted))?;
    }
    Ok(words)
}

/// The data's bytes in the file before any field is set: the table of zeros, the value words, the stubs' words of zeros, and
/// the sections.
#[tactic(auto, using(crate::proofs::ImageParts::data_length))]
pub fn data_image(alloc: Global, link: &Link) -> Result<Vec<u8>, AllocError>
    requires { IsWorkedOut link.now }
    ensures value { IfOk result (λ bytes. bytes.items ≡ data_image link.now) }
    ensures size { IfOk result (λ bytes. length bytes.items ≡ file_end (laying_in link.now) - table_at (laying_in link.now)) }
{
    let words = value_words(alloc, link)?;
    let mut rows = Vec::new(alloc);
    put_words(&mut rows, false, &words)?;
    data_with(alloc, link, &rows)
}
