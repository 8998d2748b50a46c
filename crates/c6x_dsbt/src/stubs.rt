use indexmap::IndexSet;
use std::alloc::{AllocError, Global};
use std::marker::Model;

/// The imports that have a stub, by their numbers among the bindings, in order of first need. Contracts see the list of
/// the numbers.
#[derive(Debug, Drop)]
pub struct Stubs {
    keys: IndexSet<u32>,
}

impl Model for Stubs {
    ghost use Rattle.std.specs.Prelude.{ℕ, List};

    ghost Value = { List ℕ };

    ghost view = { λ s. s.keys.keys };
}

impl Stubs {
    ghost use Rattle.std.specs.Prelude.{◌≡◌, ◌<◌, [], IfSome, OnOk, length, slice_get};
    ghost use Rattle.c6x_dsbt.specs.Growth.{with_stub};
    ghost use Rattle.c6x_dsbt.specs.Needs.{stub_place};

    /// No stubs.
    pub fn new(alloc: Global) -> Stubs
        ensures { result ≡ [] }
    {
        Stubs {
            keys: IndexSet::new(alloc),
        }
    }

    /// How many stubs there are.
    pub fn len(&self) -> usize
        ensures { result ≡ length self.now }
    {
        self.keys.len()
    }

    /// The number of the import that has the stub at this place.
    pub fn get(&self, place: usize) -> Option<u32>
        ensures { result ≡ slice_get self.now place }
    {
        self.keys.get_index(place).copied()
    }

    /// The place of the stub of the import with this number.
    pub fn find(&self, number: u32) -> Option<usize>
        ensures place { result ≡ stub_place self.now number }
        ensures there { IfSome result (λ place. place < length self.now) }
    {
        self.keys.get_index_of(&number)
    }

    /// Adds a stub if it is new.
    pub fn add(&mut self, number: u32) -> Result<(), AllocError>
        ensures { OnOk result (self.new ≡ with_stub self.old number) }
    {
        self.keys.insert(number)?;
        Ok(())
    }
}
