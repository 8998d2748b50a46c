use indexmap::IndexSet;
use std::alloc::{AllocError, Global};
use std::marker::Model;

/// Names, each once, in order of first appearance. Contracts see the list of them.
#[derive(Debug, Drop)]
pub struct Names<'a> {
    slices: IndexSet<&'a [u8]>,
}

impl<'a> Model for Names<'a> {
    ghost use Rattle.std.specs.Prelude.{ℕ, List};
    ghost use Rattle.c6x_symbols.specs.Names.{bytes_of_each};

    ghost Value = { List (List ℕ) };

    ghost view = { λ n. bytes_of_each n.slices.keys };
}

impl<'a> Names<'a> {
    ghost use Rattle.std.specs.Prelude.{◌≡◌, ◌<◌, ◌++◌, ◌∷◌, [], None, IfSome, OnOk, length, slice_index_or};
    ghost use Rattle.c6x_symbols.specs.Names.{name_at};

    /// No names.
    pub fn new(alloc: Global) -> Names<'a>
        ensures { result ≡ [] }
    {
        Names {
            slices: IndexSet::new(alloc),
        }
    }

    /// The place of a name.
    pub fn find(&self, name: &[u8]) -> Option<usize>
        ensures is { result ≡ name_at self.now name.now }
        ensures there { IfSome result (λ i. i < length self.now) }
    {
        self.slices.get_index_of(name)
    }

    /// Adds a name that is not there at the end.
    pub fn add(&mut self, name: &'a [u8]) -> Result<(), AllocError>
        requires { name_at self.old name.now ≡ None }
        ensures { OnOk result (self.new ≡ self.old ++ name.now ∷ []) }
    {
        self.slices.insert(name)?;
        Ok(())
    }

    /// The name at a place; it is empty past the last one.
    pub fn get(&self, place: usize) -> &[u8]
        ensures { result.now ≡ slice_index_or self.now place [] }
    {
        match self.slices.get_index(place) {
            Some(name) => name,
            None => &[],
        }
    }
}
