ghost use Rattle.std.specs.Prelude.{◌≡◌, ℕ, List, length};
ghost use Rattle.c6x_reloc.specs.FieldBits.{AreBytes, IsLast, IsPatchedBy, patched};
ghost use Rattle.c6x_reloc.specs.declared.field.Field.{Field};
ghost use Rattle.c6x_reloc.specs.Fields.{HoldsValue};

/// A field whose bits no later field has holds its value in the patched bytes.
pub fn the_last_value_holds()
    ensures { (old new : List ℕ) (fields : List Field) (field : Field) → AreBytes new → IsPatchedBy old fields new → IsLast (length new) fields field → HoldsValue new field.place field.kind field.value }
{}

/// The patched bytes are one list.
pub fn patched_bytes_are_one_list()
    ensures { (old new : List ℕ) (fields : List Field) → AreBytes new → IsPatchedBy old fields new → new ≡ patched old fields }
{}

/// A field of a list whose bits no later one has holds its value in the bytes patched by the list.
pub fn the_last_value_holds_in_the_list()
    ensures { (old : List ℕ) (fields : List Field) (field : Field) → IsLast (length old) fields field → HoldsValue (patched old fields) field.place field.kind field.value }
{}
