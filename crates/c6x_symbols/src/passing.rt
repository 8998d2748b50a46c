ghost use Rattle.std.specs.Prelude.{◌≡◌, ◌++◌, ◌∷◌, ◌+◌, ◌^◌, ◌<◌, ◌≤◌, [], if◌then◌else◌, ℕ, List, All, OnOk, length};
ghost use Rattle.c6x_reloc.specs.FieldBits.{IsPatchedBy};
ghost use Rattle.c6x_reloc.specs.declared.field.Field.{Field};
ghost use Rattle.c6x_symbols.specs.LinkEntries.{IsIn, Passes, data_field, data_fields, entries_error, error_at, field_at, field_in, shown, text_field, text_fields};
ghost use Rattle.c6x_reloc.specs.Table.{row_of};

use crate::checking::checked_value;
use crate::entry::{Entry, EntryError};
use crate::relas::is_dynamic;
use c6x_reloc::{Field, Origin, RelocKind, origin_of, set_field};

/// Sets the fields of entries in the bytes of text and of data, or tells the first rule that one breaks.
#[tactic(auto, unfolding(crate::specs::LinkEntries::text_fields, crate::specs::LinkEntries::data_fields), using(crate::proofs::Walks::errors_drop, crate::proofs::Walks::text_more, crate::proofs::Walks::data_more))]
pub fn set_entries(text: &mut [u8], content: &mut [u8], entries: &[Entry]) -> Result<(), EntryError>
    requires { All (IsIn (length text.old) (length content.old)) entries.now }
    ensures rules { Passes result (entries_error entries.now) }
    ensures text { OnOk result (IsPatchedBy text.old (text_fields entries.now) text.new) }
    ensures content { OnOk result (IsPatchedBy content.old (data_fields entries.now) content.new) }
{
    for entry in entries {
        set_entry(text, content, entry)?;
    }
    Ok(())
}

/// Sets the field of an entry in its segment.
fn set_entry(text: &mut [u8], content: &mut [u8], entry: &Entry) -> Result<(), EntryError>
    requires { IsIn (length text.old) (length content.old) entry.now }
    ensures rules { Passes result (error_at entry.now) }
    ensures text { OnOk result ((old : List ℕ) (fields : List Field) → IsPatchedBy old fields text.old → IsPatchedBy old (fields ++ text_field entry.now) text.new) }
    ensures content { OnOk result ((old : List ℕ) (fields : List Field) → IsPatchedBy old fields content.old → IsPatchedBy old (fields ++ data_field entry.now) content.new) }
{
    if entry.reference.in_text {
        set_in(text, entry)
    } else {
        set_in(content, entry)
    }
}

/// Sets the field of an entry in these bytes.
#[tactic(auto, unfolding(crate::specs::LinkEntries::error_at, crate::specs::LinkEntries::field_at), using(crate::proofs::Walks::unchanged, c6x_reloc::proofs::RowFacts::value_fits, c6x_reloc::proofs::RowFacts::width_some, c6x_reloc::proofs::RowFacts::size_some))]
fn set_in(bytes: &mut [u8], entry: &Entry) -> Result<(), EntryError>
    requires within { 1 ≤ entry.now.reference.room → entry.now.at + entry.now.reference.room ≤ length bytes.old }
    requires small { length bytes.old < 2 ^ 32 }
    ensures rules { Passes result (error_at entry.now) }
    ensures more { OnOk result ((old : List ℕ) (fields : List Field) → IsPatchedBy old fields bytes.old → IsPatchedBy old (fields ++ field_at entry.now) bytes.new) }
{
    let value = match checked_value(&entry.reference) {
        Ok(value) => value,
        Err(rule) => {
            return Err(EntryError {
                rule,
                object: entry.object,
                place: entry.reference.offset,
            });
        }
    };
    let Some(kind) = entry.reference.kind else {
        return Ok(());
    };
    match origin_of(kind) {
        Origin::Nothing => Ok(()),
        _ => {
            set_value(bytes, entry, kind, value);
            Ok(())
        }
    }
}

/// Sets the value of an entry with a field.
fn set_value(bytes: &mut [u8], entry: &Entry, kind: RelocKind, value: u32)
    requires near { entry.now.at + entry.now.reference.offset < 2 ^ 32 }
    requires within { entry.now.at + entry.now.reference.offset + (row_of kind).size ≤ length bytes.old }
    requires some { 1 ≤ (row_of kind).width }
    requires fits { value < 2 ^ (row_of kind).width }
    ensures more { (old : List ℕ) (fields : List Field) → IsPatchedBy old fields bytes.old → IsPatchedBy old (fields ++ field_in entry.now kind value ∷ []) bytes.new }
    ensures size { length bytes.new ≡ length bytes.old }
{
    let value = shown(entry, value);
    let field = Field {
        place: entry.at + entry.reference.offset,
        kind,
        value,
    };
    set_field(bytes, field);
}

/// The value in the file: 0 in a field that the loader fills.
fn shown(entry: &Entry, value: u32) -> u32
    ensures is { result ≡ shown entry.now value }
    ensures small { result ≤ value }
{
    if is_dynamic(&entry.reference) {
        0
    } else {
        value
    }
}
