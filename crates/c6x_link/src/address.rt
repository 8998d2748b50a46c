ghost use Rattle.std.specs.Prelude.{◌≡◌, slice_index};
ghost use Rattle.c6x_layout.specs.Regions.{moves};
ghost use Rattle.c6x_link.specs.Addresses.{binding_address, bound_address, class_address, section_address, symbol_address, wanted_address};

use crate::link_value::Link;
use c6x_dsbt::Wanted;
use c6x_elf::SectionClass;
use c6x_symbols::{Binding, Region};

/// The link address of what a symbol stands for.
#[tactic(auto, unfolding(crate::specs::Addresses::wanted_address))]
pub fn wanted_address(link: &Link, wanted: Wanted) -> u32
    ensures { result ≡ wanted_address link.now wanted }
{
    match wanted {
        Wanted::Bound(number) => bound_address(link, number),
        Wanted::Local { object, symbol } => {
            if symbol == 0 {
                return 0;
            }
            symbol_address(link, object, symbol)
        }
    }
}

/// The link address of what the name with this number is bound to.
#[tactic(auto, unfolding(crate::specs::Addresses::bound_address), using(crate::proofs::Symbols::past_is_zero))]
pub fn bound_address(link: &Link, number: u32) -> u32
    ensures { result ≡ bound_address link.now number }
{
    let bindings = link.bindings();
    if number >= bindings.len() {
        return 0;
    }
    binding_address(link, number, bindings.get(number))
}

/// The link address of what the name with this number is bound to, which is told.
#[tactic(auto, using(std::proofs::lemmas::List::get_or_default, std::proofs::lemmas::List::get_or_past))]
fn binding_address(link: &Link, number: u32, binding: Binding) -> u32
    ensures { result ≡ binding_address link.now number binding }
{
    match binding {
        Binding::Strong { object, symbol } | Binding::Weak { object, symbol } => {
            symbol_address(link, object, symbol)
        }
        Binding::Common { .. } => common_address(link, number),
        Binding::Import { .. } => 0,
        Binding::Table => link.layout().table,
    }
}

/// The address of the common of the name with this number.
#[tactic(auto, using(std::proofs::lemmas::List::get_or_default, std::proofs::lemmas::List::get_or_past))]
fn common_address(link: &Link, number: u32) -> u32
    ensures { result ≡ slice_index link.now.layout.commons number }
{
    let commons = link.layout().commons.as_slice();
    if number as usize >= commons.len() {
        return 0;
    }
    commons[number as usize]
}

/// The link address of the definition that a symbol of an object is.
#[tactic(auto, unfolding(crate::specs::Addresses::symbol_address))]
fn symbol_address(link: &Link, object: u32, number: u32) -> u32
    ensures { result ≡ symbol_address link.now object number }
{
    match link.symbol(object, number) {
        Some(symbol) => class_address(link, object, symbol.value, symbol.class()),
        None => 0,
    }
}

/// The link address of a definition in this section of an object.
#[tactic(auto, unfolding(crate::specs::Addresses::section_address))]
fn class_address(link: &Link, object: u32, value: u32, class: SectionClass) -> u32
    ensures { result ≡ class_address link.now object value class }
{
    match class {
        SectionClass::Section(section) => {
            if !moves(link.section_region(object, u32::from(section))) {
                return value;
            }
            link.section_address(object, u32::from(section))
                .wrapping_add(value)
        }
        SectionClass::Undefined
        | SectionClass::Absolute
        | SectionClass::Common
        | SectionClass::NearCommon => value,
    }
}

/// Whether a definition moves when the module is loaded.
fn moves(region: Region) -> bool
    ensures { result ≡ moves region }
{
    match region {
        Region::Text | Region::Data | Region::Import => true,
        Region::Absolute => false,
    }
}
