ghost use Rattle.std.specs.Prelude.{◌≡◌, ℕ, [], List, None};
ghost use Rattle.c6x_asm_object.specs.Named.{AreNamed};

use crate::asm_section::AsmSection;
use crate::names::Names;
use crate::symbols::Symbols;
use std::alloc::Global;

/// The sections and symbols that the lines so far make.
#[derive(Drop)]
pub struct Object<'a> {
    pub sections: Vec<AsmSection>,
    /// The name of each section, so that one is found without a walk.
    pub section_names: Names<'a>,
    /// The section that lines go to.
    pub current: Option<usize>,
    pub symbols: Symbols<'a>,
}

impl<'a> Object<'a> {
    /// Neither sections nor symbols.
    pub fn new(alloc: Global) -> Object<'a>
        ensures sections { result.sections.items ≡ [] }
        ensures section_names { result.section_names ≡ [] }
        ensures current { result.current ≡ None }
        ensures symbols { result.symbols.list.items ≡ [] }
        ensures named { (text : List ℕ) → AreNamed text result.symbols }
    {
        Object {
            sections: Vec::new(alloc),
            section_names: Names::new(alloc),
            current: None,
            symbols: Symbols::new(alloc),
        }
    }
}
