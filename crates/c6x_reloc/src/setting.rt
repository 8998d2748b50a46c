ghost use Rattle.std.specs.Prelude.{◌≡◌, ◌∷◌, ◌++◌, [], All, List, ℕ, length};
ghost use Rattle.c6x_reloc.specs.FieldBits.{CanSet, IsPatchedBy};
ghost use Rattle.c6x_reloc.specs.declared.field.Field.{Field};

use crate::field::Field;
use crate::fields::patch_at;

/// Sets a field's value in bytes.
pub fn set_field(bytes: &mut [u8], field: Field)
    requires { CanSet field (length bytes.old) }
    ensures one { IsPatchedBy bytes.old (field ∷ []) bytes.new }
    ensures more { (first : List ℕ) (fields : List Field) → IsPatchedBy first fields bytes.old → IsPatchedBy first (fields ++ field ∷ []) bytes.new }
    ensures len { length bytes.new ≡ length bytes.old }
{
    patch_at(bytes, field.place as usize, field.kind, field.value);
}

/// Sets the values of fields in bytes, one after the other.
#[tactic(auto, using(crate::proofs::Steps::none_set))]
pub fn set_fields(bytes: &mut [u8], fields: &[Field])
    requires { All (λ field. CanSet field (length bytes.old)) fields.now }
    ensures { IsPatchedBy bytes.old fields.now bytes.new }
{
    for field in fields {
        set_field(bytes, *field);
    }
}
