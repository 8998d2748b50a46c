ghost use Rattle.std.specs.Prelude.{◌≡◌};
ghost use Rattle.c6x_layout.specs.Groups.{in_group};

use c6x_symbols::{Part, Zone};

/// A group of sections that are laid one behind the other.
#[derive(Clone, Copy, Debug)]
pub enum Group {
    Text,
    NearBytes,
    NearZeros,
    FarBytes,
    FarZeros,
    /// All sections of the data.
    Data,
}

/// Whether a section belongs to a group.
pub fn is_in(group: Group, part: &Part) -> bool
    ensures { result ≡ in_group group part.now }
{
    match group {
        Group::Text => matches!(part.zone, Zone::Text),
        Group::NearBytes => matches!(part.zone, Zone::Near) && part.filled,
        Group::NearZeros => matches!(part.zone, Zone::Near) && !part.filled,
        Group::FarBytes => matches!(part.zone, Zone::Far) && part.filled,
        Group::FarZeros => matches!(part.zone, Zone::Far) && !part.filled,
        Group::Data => !matches!(part.zone, Zone::Text),
    }
}
