use crate::name_index::{NameIndex, make_index};
use crate::reading::read_module;
use c6x_base::Name;
use c6x_elf::File;
use c6x_module::{Module, ModuleError};
use std::alloc::Global;
use std::marker::Model;

/// The most modules of one owner. It is this project's own limit.
pub const MOST_OWNED_MODULES: u32 = 256;

/// The modules of a plan, in its order. Contracts see the list of the modules.
#[derive(Debug, Drop)]
pub struct Modules {
    alloc: Global,
    modules: Vec<Module>,
    indexes: Vec<NameIndex>,
}

impl Model for Modules {
    ghost use Rattle.std.specs.Prelude.{List};
    ghost use Rattle.c6x_module.specs.declared.module.Module.{Module as Member};
    ghost use Rattle.c6x_modules.specs.Indexed.{IsOwner};

    ghost Value = { List Member };

    ghost view = { λ m. m.modules.items };

    ghost invariant = { λ m. IsOwner m.modules.items m.indexes.items };
}

impl Modules {
    ghost use Rattle.std.specs.Prelude.{◌≡◌, ◌<◌, ◌≤◌, ◌++◌, ◌∷◌, [], length, Some, IfErr, OnErr, OnOk, false};
    ghost use Rattle.std.specs.List.{slice_get};
    ghost use Rattle.c6x_module.specs.Lookups.{export_from, symbols_of};
    ghost use Rattle.c6x_module.specs.Valid.{IsValid};
    ghost use Rattle.c6x_base.specs.declared.limits.TheConstants.{MOST_SEGMENTS as most_segments};
    ghost use Rattle.c6x_module.specs.Modules.{module_in};
    ghost use Rattle.c6x_module.specs.Refusals.{Passes};
    ghost use Rattle.c6x_module.specs.declared.module_error.ModuleError.TheVariants.{NoMemory};
    ghost use Rattle.c6x_modules.specs.Indexed.{IsIndex};
    ghost use Rattle.c6x_modules.specs.Owned.{AreModules, IsNew, refusal_of, with_module};
    ghost use Rattle.c6x_modules.specs.declared.modules.TheConstants.{MOST_OWNED_MODULES as most};

    /// No modules. It takes no memory yet.
    pub fn new(alloc: Global) -> Modules
        ensures { result ≡ [] }
    {
        Modules {
            alloc,
            modules: Vec::new(alloc),
            indexes: Vec::new(alloc),
        }
    }

    /// Takes a module in from its file, behind the others. L1 to L11 come exactly where they are the first broken rule;
    /// after every refusal the modules are as before, and the file is dropped.
    pub fn add(&mut self, name: Name, file: File) -> Result<(), ModuleError>
        requires few { length self.old < most }
        requires fresh { IsNew self.old name }
        requires segments { length file.segments ≤ most_segments }
        ensures passes { Passes result (refusal_of (module_in false name file)) }
        ensures added { OnOk result (self.new ≡ with_module self.old (module_in false name file)) }
        ensures kept { OnErr result (self.new ≡ self.old) }
    {
        let image = read_module(self.alloc, name, file)?;
        let index = make_index(self.alloc, image.symbols.as_slice())?;
        self.put(image, index)
    }

    /// Puts a module and its index behind the others, or neither.
    fn put(&mut self, image: Module, index: NameIndex) -> Result<(), ModuleError>
        requires few { length self.old < most }
        requires fresh { IsNew self.old image.name }
        requires valid { IsValid image }
        requires index { IsIndex index.buckets.items image.symbols }
        ensures put { OnOk result (self.new ≡ self.old ++ image ∷ []) }
        ensures kept { OnErr result (self.new ≡ self.old) }
        ensures memory { IfErr result (λ e. e ≡ NoMemory) }
    {
        self.indexes.push(index)?;
        match self.modules.push(image) {
            Ok(()) => Ok(()),
            Err(error) => {
                self.indexes.pop();
                Err(ModuleError::from(error))
            }
        }
    }

    /// How many modules there are.
    pub fn len(&self) -> u32
        ensures value { result ≡ length self.now }
        ensures kept { AreModules self.now }
    {
        self.modules.len() as u32
    }

    /// The modules in their order.
    pub fn as_slice(&self) -> &[Module]
        ensures value { result.now ≡ self.now }
        ensures kept { AreModules self.now }
    {
        &self.modules
    }

    /// The parts of the module with this number.
    pub fn view(&self, number: u32) -> &Module
        requires { number < length self.now }
        ensures value { slice_get self.now number ≡ Some result.now }
        ensures valid { IsValid result.now }
    {
        &self.modules[number as usize]
    }

    /// The lowest number of a symbol of that module that a look-up by this name may find; None exactly where there is none.
    pub fn find(&self, number: u32, name: &[u8]) -> Option<u32>
        requires { number < length self.now }
        ensures { result ≡ export_from name.now 0 (symbols_of self.now number) }
    {
        let symbols = self.view(number).symbols.as_slice();
        self.indexes[number as usize].find(symbols, name)
    }
}
