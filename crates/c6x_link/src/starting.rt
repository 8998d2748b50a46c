ghost use Rattle.std.specs.Prelude.{◌≡◌, ◌<◌, IfSome, length};
ghost use Rattle.c6x_link.specs.Linked.{entry_of, is_start, is_symbol, start_at};
ghost use Rattle.c6x_symbols.specs.EntryRules.{is_text};
ghost use Rattle.c6x_symbols.specs.Bindings.{binding_in, bound_at};

use crate::address::bound_address;
use crate::link_value::Link;
use c6x_symbols::{Binding, Region};

/// The address where a process begins: 0 for a library. None exactly where the plan of an executable names no definition
/// in the text.
#[tactic(auto, unfolding(crate::specs::Linked::entry_of))]
pub fn entry_of(link: &Link) -> Option<u32>
    ensures { result ≡ entry_of link.now }
{
    if link.plan().library {
        return Some(0);
    }
    match &link.plan().entry {
        Some(name) => start_at(link, link.bindings().find(name.as_bytes())),
        None => None,
    }
}

/// The address of the name with this number, if a process may begin there.
fn start_at(link: &Link, number: Option<u32>) -> Option<u32>
    requires { IfSome number (λ n. n < length link.now.bindings) }
    ensures { result ≡ start_at link.now number }
{
    let number = number?;
    if !is_start(link, number) {
        return None;
    }
    Some(bound_address(link, number))
}

/// Whether a process may begin at the name with this number: a symbol's definition in the text.
fn is_start(link: &Link, number: u32) -> bool
    requires { number < length link.now.bindings }
    ensures { result ≡ is_start link.now number (is_symbol (binding_in (bound_at link.now.bindings number))) }
{
    is_symbol(link.bindings().get(number)) && is_text(link.bound_region(number))
}

/// Whether a name is bound to the definition of a symbol.
fn is_symbol(binding: Binding) -> bool
    ensures { result ≡ is_symbol binding }
{
    match binding {
        Binding::Strong { .. } | Binding::Weak { .. } => true,
        Binding::Common { .. } | Binding::Import { .. } | Binding::Table => false,
    }
}

fn is_text(region: Region) -> bool
    ensures { result ≡ is_text region }
{
    match region {
        Region::Text => true,
        Region::Data | Region::Absolute | Region::Import => false,
    }
}
