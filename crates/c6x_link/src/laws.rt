ghost use Rattle.std.specs.Prelude.{◌≡◌, ◌+◌, ℕ, List, Ok, None, Some, false, length};
ghost use Rattle.c6x_elf.specs.declared.file.File.{File};
ghost use Rattle.c6x_reloc.specs.FieldBits.{IsLast};
ghost use Rattle.c6x_link.specs.Linked.{code_of, content_of, link_refusal, linked, linked_of};
ghost use Rattle.c6x_symbols.specs.LinkEntries.{data_fields, field_in, is_dynamic, text_fields};
ghost use Rattle.c6x_symbols.specs.declared.entry.Entry.{Entry};
ghost use Rattle.c6x_link.specs.Images.{data_image, text_image};
ghost use Rattle.c6x_link.specs.LinkEntries.{link_entries};
ghost use Rattle.c6x_link.specs.Working.{working_of};
ghost use Rattle.c6x_plan.specs.declared.link_plan.LinkPlan.{LinkPlan};
ghost use Rattle.c6x_reloc.specs.Fields.{HoldsValue};
ghost use Rattle.c6x_reloc.specs.Value.{value_of};
ghost use Rattle.c6x_reloc.specs.declared.reloc_kind.RelocKind.{RelocKind};

/// A link of objects is a file exactly where no rule is broken.
pub fn links_are_files_or_rules()
    ensures rule { (objects : List File) (plan : LinkPlan) (f : File) → linked objects plan ≡ Ok f → link_refusal objects plan ≡ None }
    ensures file { (objects : List File) (plan : LinkPlan) (f : File) → linked objects plan ≡ Ok f → f ≡ linked_of objects plan }
    ensures is { (objects : List File) (plan : LinkPlan) → link_refusal objects plan ≡ None → linked objects plan ≡ Ok (linked_of objects plan) }
{}

/// Every relocation entry of the objects whose bits no later entry names, and whose field the loader does not fill, holds
/// its value at the link addresses: in the text, and in the data.
pub fn linked_fields_hold_their_values()
    ensures text { (objects : List File) (plan : LinkPlan) (e : Entry) (kind : RelocKind) (value : ℕ) → e.reference.kind ≡ Some kind → value_of kind e.reference.inputs ≡ Ok value → is_dynamic e.reference ≡ false → IsLast (length (text_image (working_of objects plan))) (text_fields (link_entries (working_of objects plan))) (field_in e kind value) → HoldsValue (code_of (working_of objects plan)) (e.at + e.reference.offset) kind value }
    ensures content { (objects : List File) (plan : LinkPlan) (e : Entry) (kind : RelocKind) (value : ℕ) → e.reference.kind ≡ Some kind → value_of kind e.reference.inputs ≡ Ok value → is_dynamic e.reference ≡ false → IsLast (length (data_image (working_of objects plan))) (data_fields (link_entries (working_of objects plan))) (field_in e kind value) → HoldsValue (content_of (working_of objects plan)) (e.at + e.reference.offset) kind value }
{}
