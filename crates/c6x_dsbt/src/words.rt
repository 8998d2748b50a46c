use crate::wanted::Wanted;
use indexmap::IndexSet;
use std::alloc::{AllocError, Global};
use std::marker::Model;

/// What has a value word in the table, in order of first need. Contracts see the list of it.
#[derive(Debug, Drop)]
pub struct Words {
    keys: IndexSet<Wanted>,
}

impl Model for Words {
    ghost use Rattle.std.specs.Prelude.{List};
    ghost use Rattle.c6x_dsbt.specs.declared.wanted.Wanted.{Wanted};

    ghost Value = { List Wanted };

    ghost view = { λ w. w.keys.keys };
}

impl Words {
    ghost use Rattle.std.specs.Prelude.{◌≡◌, ◌<◌, [], IfSome, OnOk, length, slice_get};
    ghost use Rattle.c6x_dsbt.specs.Growth.{with_word};
    ghost use Rattle.c6x_dsbt.specs.Needs.{word_place};

    /// No words.
    pub fn new(alloc: Global) -> Words
        ensures { result ≡ [] }
    {
        Words {
            keys: IndexSet::new(alloc),
        }
    }

    /// How many words there are.
    pub fn len(&self) -> usize
        ensures { result ≡ length self.now }
    {
        self.keys.len()
    }

    /// What has the word at this place, counted from the first value word.
    pub fn get(&self, place: usize) -> Option<Wanted>
        ensures { result ≡ slice_get self.now place }
    {
        self.keys.get_index(place).copied()
    }

    /// The place of a word, counted from the first value word.
    pub fn find(&self, wanted: Wanted) -> Option<usize>
        ensures place { result ≡ word_place self.now wanted }
        ensures there { IfSome result (λ place. place < length self.now) }
    {
        self.keys.get_index_of(&wanted)
    }

    /// Adds a word if it is new.
    pub fn add(&mut self, wanted: Wanted) -> Result<(), AllocError>
        ensures { OnOk result (self.new ≡ with_word self.old wanted) }
    {
        self.keys.insert(wanted)?;
        Ok(())
    }
}
