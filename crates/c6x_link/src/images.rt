ghost use Rattle.std.specs.Prelude.{◌≡◌, ◌+◌, ◌-◌, ◌≤◌, ◌++◌, ◌∷◌, [], false, List, IfOk, OnOk, length, vec_len};
ghost use Rattle.c6x_elf.specs.Laid.{InOrder, Part, laid};
ghost use Rattle.c6x_elf.specs.Rows.{word_row};
ghost use Rattle.c6x_layout.specs.Layouts.{code_end, file_end, table_at};
ghost use Rattle.c6x_link.specs.Images.{data_image, stub_parts, text_image, value_words};
ghost use Rattle.c6x_link.specs.Sections.{parts_between};
ghost use Rattle.c6x_link.specs.Worked.{HasFewStubs, IsWorkedOut, laying_in};
ghost use Rattle.c6x_layout.specs.declared.file_limits.TheConstants.{TEXT_START};

use crate::link_value::Link;
use crate::sections::put_sections;
use crate::stubs::stub_bytes;
use c6x_elf::put_part;
use c6x_layout::file_limits::TEXT_START;
use std::alloc::{AllocError, Global};

/// Puts the stubs in their place in the text, if there are any.
#[tactic(auto, unfolding(crate::specs::Images::first_stub_word, crate::specs::Images::stub_rows))]
fn put_stubs(alloc: Global, out: &mut Vec<u8>, link: &Link) -> Result<(), AllocError>
    requires order { InOrder (vec_len out.old) (stub_parts link.now) }
    requires few { HasFewStubs link.now }
    ensures laid { OnOk result ((rest : List Part) → out.new.items ++ laid (vec_len out.new) rest ≡ out.old.items ++ laid (vec_len out.old) (stub_parts link.now ++ rest)) }
{
    let tables = link.tables();
    let count = tables.stubs.len();
    if count == 0 {
        return Ok(());
    }
    let first = link.plan().table + tables.words.len() as u32;
    let rows = stub_bytes(alloc, first, count as u32)?;
    let place = link.layout().stubs.saturating_sub(TEXT_START);
    put_part(out, place as usize, &rows)
}

/// The text before any field is set: its sections and stubs.
#[tactic(auto, unfolding(crate::specs::Images::text_image))]
pub fn text_image(alloc: Global, link: &Link) -> Result<Vec<u8>, AllocError>
    requires { IsWorkedOut link.now }
    ensures value { IfOk result (λ bytes. bytes.items ≡ text_image link.now) }
    ensures size { IfOk result (λ bytes. length bytes.items ≡ code_end (laying_in link.now) - TEXT_START) }
{
    let layout = link.layout();
    let mut text = Vec::new(alloc);
    put_sections(
        &mut text,
        link.objects(),
        TEXT_START,
        0,
        layout.table,
        layout.places.as_slice(),
    )?;
    put_stubs(alloc, &mut text, link)?;
    Ok(text)
}

/// The data's bytes in the file before any field is set, where these are the bytes of the value words.
pub fn data_with(alloc: Global, link: &Link, words: &[u8]) -> Result<Vec<u8>, AllocError>
    requires worked { IsWorkedOut link.now }
    requires words { words.now ≡ word_row false (value_words link.now) }
    ensures { IfOk result (λ bytes. bytes.items ≡ data_image link.now) }
{
    let layout = link.layout();
    let table = layout.table;
    let first = layout.words.saturating_sub(table);
    let end = layout.file_end.saturating_sub(table);
    let mut data = Vec::new(alloc);
    put_part(&mut data, first as usize, words)?;
    put_sections(
        &mut data,
        link.objects(),
        table,
        table,
        layout.file_end,
        layout.places.as_slice(),
    )?;
    put_part(&mut data, end as usize, &[])?;
    Ok(data)
}
