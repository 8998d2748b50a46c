ghost use Rattle.std.specs.Prelude.{◌≡◌, ◌++◌, ◌∷◌, [], List, OnOk, replicate, slice_set};

use std::alloc::{AllocError, Global};
use std::marker::Model;

/// A list of items in a public type, which grows at its end. Contracts see the list of what they see of each item.
#[derive(Debug, Drop)]
pub struct Row<T> {
    items: Vec<T>,
}

impl<T> Model for Row<T> {
    ghost use Rattle.std.specs.Prelude.{List};

    ghost Value = { List T };

    ghost view = { λ r. r.items.items };
}

impl<T> Row<T> {
    /// The empty row.
    pub fn new(alloc: Global) -> Row<T>
        ensures { result ≡ [] }
    {
        Row {
            items: Vec::new(alloc),
        }
    }

    /// The row of these items.
    pub fn of(items: Vec<T>) -> Row<T>
        ensures { result ≡ items.items }
    {
        Row { items }
    }

    /// Its items.
    pub fn as_slice(&self) -> &[T]
        ensures { result.now ≡ self.now }
    {
        &self.items
    }

    /// The vector of its items.
    pub fn into_vec(self) -> Vec<T>
        ensures { result.items ≡ self }
    {
        self.items
    }
}

impl<T: Drop> Row<T> {
    /// Adds an item at the end.
    pub fn push(&mut self, item: T) -> Result<(), AllocError>
        ensures { OnOk result (self.new ≡ self.old ++ item ∷ []) }
    {
        self.items.push(item).map_err(AllocError::from)
    }
}

impl Row<u8> {
    /// Adds bytes at the end.
    pub fn extend(&mut self, bytes: &[u8]) -> Result<(), AllocError>
        ensures { OnOk result (self.new ≡ self.old ++ bytes.now) }
    {
        self.items.extend_from_slice(bytes)
    }

    /// Adds zeros at the end.
    #[tactic(auto, using(crate::proofs::Zeros::zeros_none, crate::proofs::Zeros::zeros_more))]
    pub fn extend_zeros(&mut self, count: u32) -> Result<(), AllocError>
        ensures { OnOk result (self.new ≡ self.old ++ replicate count 0) }
    {
        for _ in 0..count {
            self.items.push(0).map_err(AllocError::from)?;
        }
        Ok(())
    }

    /// Writes a byte over the one at an index, if there is one.
    pub fn write(&mut self, at: usize, byte: u8)
        ensures { self.new ≡ slice_set self.old at byte }
    {
        if at < self.items.len() {
            self.items[at] = byte;
        }
    }
}
