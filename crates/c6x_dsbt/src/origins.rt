ghost use Rattle.std.specs.Prelude.{◌≡◌};
ghost use Rattle.c6x_dsbt.specs.Needs.{number_origin};

use c6x_reloc::{Origin, kind_of, origin_of};

/// What the value of an entry is taken from, by its kind's number; nothing where that has no kind.
pub fn origin_in(number: Option<u8>) -> Origin
    ensures { result ≡ number_origin number }
{
    let Some(number) = number else {
        return Origin::Nothing;
    };
    match kind_of(number) {
        Ok(kind) => origin_of(kind),
        Err(_) => Origin::Nothing,
    }
}
