ghost use Rattle.std.specs.Prelude.{◌≡◌, ◌+◌, ◌^◌, ◌<◌, [], ◌∷◌, length, OnOk, IfOk};
ghost use Rattle.c6x_asm_object.specs.Adding.{first_built, named, added, with_names};

use crate::headers::{STRINGS, null_section, table_section};
use c6x_elf::{NameTable, Section};
use std::alloc::{AllocError, Global};
use std::marker::Model;

/// The sections of an object file so far, and the table of their names.
#[derive(Drop)]
pub struct SectionTable {
    sections: Vec<Section>,
    names: NameTable,
}

impl Model for SectionTable {
    ghost use Rattle.c6x_asm_object.specs.Built.{Built};

    ghost Value = { Built };

    ghost view = { λ t. record { sections = t.sections.items; names = t.names } };
}

impl SectionTable {
    /// The null section, whose name is empty.
    #[tactic(auto, unfolding(crate::specs::Adding::first_built), using(crate::proofs::Rooms::no_names))]
    pub fn new(alloc: Global) -> Result<SectionTable, AllocError>
        ensures { IfOk result (λ table. table ≡ first_built) }
    {
        let mut sections = Vec::new(alloc);
        sections
            .push(null_section(alloc)?)
            .map_err(AllocError::from)?;
        Ok(SectionTable {
            sections,
            names: NameTable::new(alloc)?,
        })
    }

    /// Adds a section, whose name has two parts and goes behind the others.
    #[tactic(auto, using(crate::proofs::Adds::added_one))]
    pub fn add(&mut self, front: &[u8], name: &[u8], section: Section) -> Result<(), AllocError>
        requires { length self.old.names < 2 ^ 32 }
        ensures { OnOk result (self.new ≡ added (named front.now name.now section ∷ []) self.old) }
    {
        let name = self.names.add_joined(front, name)?;
        self.sections
            .push(Section { name, ..section })
            .map_err(AllocError::from)?;
        Ok(())
    }

    /// All sections, the names of the sections being the last.
    #[tactic(auto, unfolding(crate::specs::Adding::with_names))]
    pub fn finish(self, alloc: Global) -> Result<Vec<Section>, AllocError>
        requires { length self.names + 10 < 2 ^ 32 }
        ensures { IfOk result (λ sections. sections.items ≡ with_names self) }
    {
        let SectionTable {
            mut sections,
            mut names,
        } = self;
        let name = names.add(b".shstrtab")?;
        let section = table_section(alloc, STRINGS, names.as_bytes())?;
        sections
            .push(Section { name, ..section })
            .map_err(AllocError::from)?;
        Ok(sections)
    }
}
