ghost use Rattle.std.specs.Prelude.{◌≡◌, ◌+◌, ◌<◌, ◌≤◌, ◌++◌, ◌∷◌, [], List, ℕ, OnOk, length, vec_len, slice_set, slice_index_or};
ghost use Rattle.c6x_symbols.specs.Groups.{no_group};
ghost use Rattle.c6x_symbols.specs.Growth.{AreGroups, with_mention};
ghost use Rattle.c6x_symbols.specs.Mentions.{Named};

use crate::group::Group;
use crate::growing::{no_group, with_mention};
use crate::mention::Mention;
use crate::names::Names;
use std::alloc::{AllocError, Global};

/// The names of symbols in order of first appearance, and what is known of each.
#[derive(Debug, Drop)]
pub struct Groups<'a> {
    pub names: Names<'a>,
    pub list: Vec<Group>,
}

impl<'a> Groups<'a> {
    /// None yet.
    pub fn new(alloc: Global) -> Groups<'a>
        ensures groups { AreGroups [] result.names result.list.items }
        ensures none { result.names ≡ [] }
    {
        Groups {
            names: Names::new(alloc),
            list: Vec::new(alloc),
        }
    }
}

/// Adds a mention of a name.
#[tactic(auto, using(crate::proofs::Grouping::add_known, crate::proofs::Grouping::add_new))]
pub fn add<'a>(groups: &mut Groups<'a>, name: &'a [u8], mention: Mention) -> Result<(), AllocError>
    requires { length groups.old.list.items ≡ length groups.old.names }
    ensures groups { OnOk result ((xs : List Named) → AreGroups xs groups.old.names groups.old.list.items → AreGroups (xs ++ (name.now, mention) ∷ []) groups.new.names groups.new.list.items) }
    ensures same { OnOk result (length groups.new.list.items ≡ length groups.new.names) }
    ensures few { OnOk result (length groups.new.names ≤ length groups.old.names + 1) }
{
    match groups.names.find(name) {
        Some(i) => {
            change(&mut groups.list, i, &mention);
        }
        None => {
            put(&mut groups.list, &mention)?;
            groups.names.add(name)?;
        }
    }
    Ok(())
}

/// Adds a mention to the group at a place.
#[tactic(auto, using(std::proofs::lemmas::List::get_or_default))]
fn change(list: &mut Vec<Group>, i: usize, mention: &Mention)
    requires { i < vec_len list.old }
    ensures { list.new.items ≡ slice_set list.old.items i (with_mention (slice_index_or list.old.items i no_group) mention.now) }
{
    let group = list[i];
    list[i] = with_mention(group, mention);
}

/// Adds the group of one mention at the end.
fn put(list: &mut Vec<Group>, mention: &Mention) -> Result<(), AllocError>
    ensures { OnOk result (list.new.items ≡ list.old.items ++ with_mention no_group mention.now ∷ []) }
{
    list.push(with_mention(no_group(), mention))?;
    Ok(())
}
