ghost use Rattle.std.specs.Prelude.{◌≡◌};
ghost use Rattle.c6x_symbols.specs.Groups.{no_group};
ghost use Rattle.c6x_symbols.specs.Growth.{common_more, first_or, second_or, with_common, with_mention};

use crate::common::Common;
use crate::group::Group;
use crate::mention::Mention;
use crate::source::Source;
use c6x_elf::Visibility;

/// What no mention says.
#[tactic(auto, unfolding(crate::specs::Groups::no_group))]
pub fn no_group() -> Group
    ensures { result ≡ no_group }
{
    Group {
        strong: None,
        second: None,
        common: None,
        weak: None,
        all_weak: true,
        visibility: Visibility::Default,
    }
}

/// What the mentions of a name say together, with one more.
#[tactic(auto, unfolding(crate::specs::Growth::with_mention))]
pub fn with_mention(group: Group, mention: &Mention) -> Group
    ensures { result ≡ with_mention group mention.now }
{
    let strong = mention.is_definition() && !mention.is_weak();
    let weak = mention.is_definition() && mention.is_weak();
    Group {
        strong: first_or(group.strong, strong, mention.source()),
        second: second_or(group.strong, group.second, strong, mention.object),
        common: common_more(group.common, mention),
        weak: first_or(group.weak, weak, mention.source()),
        all_weak: group.all_weak && mention.is_weak(),
        visibility: group.visibility.strictest(mention.symbol.visibility()),
    }
}

/// The commons together, with one mention more.
#[tactic(auto, unfolding(crate::specs::Growth::common_more))]
fn common_more(common: Option<Common>, mention: &Mention) -> Option<Common>
    ensures { result ≡ common_more common mention.now }
{
    if mention.is_common() {
        Some(with_common(common, mention))
    } else {
        common
    }
}

/// The commons together, with one more.
fn with_common(common: Option<Common>, mention: &Mention) -> Common
    ensures { result ≡ with_common common mention.now }
{
    let size = mention.symbol.size;
    let align = mention.symbol.value;
    match common {
        None => Common {
            size,
            align,
            near: mention.is_near(),
            source: mention.source(),
        },
        Some(had) => Common {
            size: had.size.max(size),
            align: had.align.max(align),
            near: had.near || mention.is_near(),
            source: if had.size < size {
                mention.source()
            } else {
                had.source
            },
        },
    }
}

/// The first one, or this one where there was none and it counts.
fn first_or(had: Option<Source>, counts: bool, new: Source) -> Option<Source>
    ensures { result ≡ first_or had counts new }
{
    match had {
        Some(_) => had,
        None if counts => Some(new),
        None => None,
    }
}

/// The second one, where there is a first one.
fn second_or(first: Option<Source>, had: Option<u32>, counts: bool, new: u32) -> Option<u32>
    ensures { result ≡ second_or first had counts new }
{
    if first.is_none() || had.is_some() || !counts {
        had
    } else {
        Some(new)
    }
}
