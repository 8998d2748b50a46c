ghost use Rattle.std.specs.Prelude.{◌≡◌, ◌-◌, All, IfOk, OnOk, length, option_map};
ghost use Rattle.c6x_reloc.specs.FieldBits.{AreBytes, patched};
ghost use Rattle.c6x_link.specs.Linked.{code_of, content_of, entry_refusal, of_entry};
ghost use Rattle.c6x_symbols.specs.LinkEntries.{IsIn, data_fields, entries_error, text_fields};
ghost use Rattle.c6x_layout.specs.Layouts.{code_end, file_end, table_at};
ghost use Rattle.c6x_link.specs.Images.{data_image as image_of_data, text_image as image_of_text};
ghost use Rattle.c6x_link.specs.Worked.{IsWorkedOut, laying_in};
ghost use Rattle.c6x_layout.specs.declared.file_limits.TheConstants.{TEXT_START};
ghost use Rattle.c6x_link.specs.LinkEntries.{link_entries};
ghost use Rattle.c6x_symbols.specs.Rules.{Passes};

use crate::images::text_image;
use crate::link_value::Link;
use crate::values::data_image;
use c6x_symbols::{Entry, LinkError, set_entries};
use std::alloc::Global;

/// The bytes of text and of data with the fields of all entries set, or the first rule that an entry breaks.
#[tactic(auto, unfolding(crate::specs::Linked::code_of, crate::specs::Linked::content_of, crate::specs::Linked::entry_refusal))]
pub fn set_images(
    alloc: Global,
    link: &Link,
    entries: &[Entry],
) -> Result<(Vec<u8>, Vec<u8>), LinkError>
    requires worked { IsWorkedOut link.now }
    requires entries { entries.now ≡ link_entries link.now }
    ensures passes { Passes result (entry_refusal link.now) }
    ensures code { IfOk result (λ r. r.0.items ≡ code_of link.now) }
    ensures content { IfOk result (λ r. r.1.items ≡ content_of link.now) }
    ensures text_size { OnOk result (length (image_of_text link.now) ≡ code_end (laying_in link.now) - TEXT_START) }
    ensures data_size { OnOk result (length (image_of_data link.now) ≡ file_end (laying_in link.now) - table_at (laying_in link.now)) }
{
    let mut code = text_image(alloc, link)?;
    let mut content = data_image(alloc, link)?;
    set_all(alloc, code.as_mut_slice(), content.as_mut_slice(), entries)?;
    Ok((code, content))
}

/// Sets the fields of entries in text and data, or tells the first rule that one breaks.
#[tactic(auto, using(c6x_reloc::proofs::Whole::whole))]
fn set_all(
    alloc: Global,
    code: &mut [u8],
    content: &mut [u8],
    entries: &[Entry],
) -> Result<(), LinkError>
    requires { All (IsIn (length code.old) (length content.old)) entries.now }
    ensures passes { Passes result (option_map of_entry (entries_error entries.now)) }
    ensures code { OnOk result (code.new ≡ patched code.old (text_fields entries.now)) }
    ensures content { OnOk result (content.new ≡ patched content.old (data_fields entries.now)) }
{
    match set_entries(code, content, entries) {
        Ok(()) => {
            are_bytes(code);
            are_bytes(content);
            Ok(())
        }
        Err(error) => Err(LinkError::telling(alloc, error.rule, error.object, error.place, &[])),
    }
}

/// Bytes are bytes.
fn are_bytes(bytes: &[u8])
    ensures { AreBytes bytes.now }
{}
