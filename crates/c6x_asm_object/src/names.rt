ghost use Rattle.std.specs.Prelude.{◌≡◌, ◌<◌, ◌++◌, ◌∷◌, [], None, IfSome, OnOk, length};
ghost use Rattle.c6x_asm_object.specs.Names.{name_at};

use indexmap::IndexSet;
use std::alloc::{AllocError, Global};
use std::marker::Model;

/// Names, each once, in order of first appearance. Contracts see the list of them.
#[derive(Drop)]
pub struct Names<'a> {
    slices: IndexSet<&'a [u8]>,
}

impl<'a> Model for Names<'a> {
    ghost use Rattle.std.specs.Prelude.{ℕ, List};
    ghost use Rattle.c6x_asm_object.specs.Names.{bytes_of_each};

    ghost Value = { List (List ℕ) };

    ghost view = { λ n. bytes_of_each n.slices.keys };
}

impl<'a> Names<'a> {
    /// No names.
    pub fn new(alloc: Global) -> Names<'a>
        ensures { result ≡ [] }
    {
        Names {
            slices: IndexSet::new(alloc),
        }
    }

    /// The place of a name.
    pub fn find(&self, name: &[u8]) -> Option<usize>
        ensures is { result ≡ name_at self.now name.now }
        ensures there { IfSome result (λ i. i < length self.now) }
    {
        self.slices.get_index_of(name)
    }

    /// Adds a name that is not there at the end.
    pub fn add(&mut self, name: &'a [u8]) -> Result<(), AllocError>
        requires { name_at self.old name.now ≡ None }
        ensures { OnOk result (self.new ≡ self.old ++ name.now ∷ []) }
    {
        self.slices.insert(name)?;
        Ok(())
    }
}
