ghost use Rattle.std.specs.Prelude.{◌≡◌};
ghost use Rattle.std.specs.List.{list_all};
ghost use Rattle.c6x_plan.specs.Words.{is_shown, is_name};

use c6x_base::limits::MOST_NAME_BYTES;

/// The bytes are a name.
#[tactic(auto, unfolding(crate::specs::Words::is_name))]
pub fn is_name(bytes: &[u8]) -> bool
    ensures { result ≡ is_name bytes.now }
{
    1 <= bytes.len() && bytes.len() <= MOST_NAME_BYTES as usize && are_shown(bytes)
}

/// The bytes show, and none is a space.
fn are_shown(bytes: &[u8]) -> bool
    ensures { result ≡ list_all is_shown bytes.now }
{
    bytes.iter().all(|byte| 33 <= *byte && *byte <= 126)
}
