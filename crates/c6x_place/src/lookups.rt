ghost use Rattle.std.specs.Prelude.{◌≡◌, ◌^◌, ◌<◌, length};
ghost use Rattle.c6x_module.specs.Lookups.{export_from, symbols_of};
ghost use Rattle.c6x_place.specs.Members.{fields_of, index_of, needed_of, slots_of};

use c6x_base::Name;
use c6x_module::{DynSymbol, Field};
use c6x_modules::Modules;

/// The index of the module with this number.
pub fn index_of(modules: &Modules, number: u32) -> u32
    ensures { result ≡ index_of modules.now number }
{
    match modules.as_slice().get(number as usize) {
        Some(image) => image.index,
        None => 0,
    }
}

/// The number of words of its table.
pub fn slots_of(modules: &Modules, number: u32) -> u32
    ensures { result ≡ slots_of modules.now number }
{
    match modules.as_slice().get(number as usize) {
        Some(image) => image.slots,
        None => 0,
    }
}

/// Its symbols.
pub fn symbols_of(modules: &Modules, number: u32) -> &[DynSymbol]
    ensures { result.now ≡ symbols_of modules.now number }
{
    match modules.as_slice().get(number as usize) {
        Some(image) => image.symbols.as_slice(),
        None => &[],
    }
}

/// Its fields.
pub fn fields_of(modules: &Modules, number: u32) -> &[Field]
    ensures { result.now ≡ fields_of modules.now number }
{
    match modules.as_slice().get(number as usize) {
        Some(image) => image.fields.as_slice(),
        None => &[],
    }
}

/// The names of the modules that it needs.
pub fn needed_of(modules: &Modules, number: u32) -> &[Name]
    ensures { result.now ≡ needed_of modules.now number }
{
    match modules.as_slice().get(number as usize) {
        Some(image) => image.needed.as_slice(),
        None => &[],
    }
}

/// The lowest number of its export of this name.
pub fn find_export(modules: &Modules, number: u32, name: &[u8]) -> Option<u32>
    ensures { result ≡ export_from name.now 0 (symbols_of modules.now number) }
{
    if number < modules.len() {
        modules.find(number, name)
    } else {
        None
    }
}
