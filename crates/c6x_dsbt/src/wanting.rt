ghost use Rattle.std.specs.Prelude.{◌≡◌, ◌^◌, ◌<◌, ◌≤◌, false, IfOk, length, map};
ghost use Rattle.c6x_symbols.specs.Objects.{IsObject};
ghost use Rattle.c6x_symbols.specs.Bindings.{name_in};
ghost use Rattle.c6x_dsbt.specs.Wanted.{wanted_at, wanted_by, wanted_of};

use crate::wanted::Wanted;
use c6x_elf::{File, Symbol, SymbolBinding, name_at, symbols};
use c6x_symbols::{Bindings, strings_of};
use std::alloc::{AllocError, Global};

/// What each symbol of an object stands for, in order.
#[tactic(auto, unfolding(crate::specs::Wanted::wanted_of), using(c6x_symbols::proofs::Counts::symbols_few, crate::proofs::Listed::numbered_map_more))]
pub fn wanted_symbols(
    alloc: Global,
    bindings: &Bindings,
    object: u32,
    file: &File,
) -> Result<Vec<Wanted>, AllocError>
    requires { IsObject false file.now }
    ensures { IfOk result (λ wanted. wanted.items ≡ wanted_of (map name_in bindings.now) object file.now.sections) }
{
    let sections = file.sections.as_slice();
    let strings = strings_of(sections);
    let symbols = symbols(alloc, false, sections)?;
    let mut wanted = Vec::new(alloc);
    for (number, symbol) in symbols.iter().enumerate() {
        wanted.push(wanted_by(bindings, strings, object, number as u32, symbol))?;
    }
    Ok(wanted)
}

/// What one symbol stands for.
#[tactic(auto, unfolding(crate::specs::Wanted::wanted_by))]
fn wanted_by(
    bindings: &Bindings,
    strings: &[u8],
    object: u32,
    number: u32,
    symbol: &Symbol,
) -> Wanted
    ensures { result ≡ wanted_by (map name_in bindings.now) strings.now object (number, symbol.now) }
{
    let own = Wanted::Local {
        object,
        symbol: number,
    };
    if number == 0 {
        return own;
    }
    match symbol.binding() {
        SymbolBinding::Local => own,
        SymbolBinding::Global | SymbolBinding::Weak => match name_at(strings, symbol.name) {
            Some(name) => match bindings.find(name) {
                Some(number) => Wanted::Bound(number),
                None => own,
            },
            None => own,
        },
    }
}

/// What the symbol with this number stands for, of an object whose symbols stand for these.
#[tactic(auto, unfolding(crate::specs::Wanted::wanted_at), using(std::proofs::lemmas::List::get_or_default, std::proofs::lemmas::List::get_or_past))]
pub fn wanted_at(wanted: &[Wanted], object: u32, symbol: u32) -> Wanted
    ensures { result ≡ wanted_at wanted.now object symbol }
{
    if symbol as usize >= wanted.len() {
        return Wanted::Local { object, symbol };
    }
    wanted[symbol as usize]
}
