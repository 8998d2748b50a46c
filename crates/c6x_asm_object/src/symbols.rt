ghost use Rattle.std.specs.Prelude.{◌≡◌, ℕ, [], List};
ghost use Rattle.c6x_asm_object.specs.Named.{AreNamed};

use crate::names::Names;
use crate::symbol::Symbol;
use std::alloc::Global;

/// The names of a text with what is said of them, in order of first appearance.
#[derive(Drop)]
pub struct Symbols<'a> {
    pub list: Vec<Symbol>,
    /// The name of each, so that one is found without a walk.
    pub names: Names<'a>,
    /// The bytes of the names with one more for each.
    pub names_len: usize,
}

impl<'a> Symbols<'a> {
    /// None yet.
    pub fn new(alloc: Global) -> Symbols<'a>
        ensures list { result.list.items ≡ [] }
        ensures named { (text : List ℕ) → AreNamed text result }
    {
        Symbols {
            list: Vec::new(alloc),
            names: Names::new(alloc),
            names_len: 0,
        }
    }
}
