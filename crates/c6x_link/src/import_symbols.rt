ghost use Rattle.std.specs.Prelude.{◌≡◌, ◌+◌, ◌^◌, ◌<◌, ◌≤◌, IfOk, if◌then◌else◌, length};
ghost use Rattle.c6x_symbols.specs.Bindings.{bound_at, is_imported};
ghost use Rattle.c6x_link.specs.Words.{import_symbols};
ghost use Rattle.c6x_link.specs.Targets.{import_symbol};

use c6x_symbols::Bindings;
use std::alloc::{AllocError, Global};

/// The number of the dynamic symbol of the first import behind a name, where that of the first one from it on is told.
fn import_behind(bindings: &Bindings, number: u32, symbol: u32) -> u32
    requires number { number < length bindings.now }
    requires symbol { symbol < 2 ^ 31 }
    ensures { result ≡ symbol + (if is_imported (bound_at bindings.now number) then 1 else 0) }
{
    if bindings.is_imported(number) {
        symbol + 1
    } else {
        symbol
    }
}

/// For each name, and behind the last one, the number that the next import has among the dynamic symbols.
#[tactic(auto, using(crate::proofs::Counted::first_symbol, crate::proofs::Counted::next_symbol, crate::proofs::Counted::exports_few, crate::proofs::Counted::symbol_small, crate::proofs::Few::symbols_more))]
pub fn import_symbols(alloc: Global, bindings: &Bindings) -> Result<Vec<u32>, AllocError>
    ensures { IfOk result (λ symbols. symbols.items ≡ import_symbols bindings.now) }
{
    let count = bindings.len();
    let exports = bindings.exports(alloc)?;
    let mut symbol = 3 + exports.len() as u32;
    let mut symbols = Vec::new(alloc);
    for number in 0..count {
        symbols.push(symbol)?;
        symbol = import_behind(bindings, number, symbol);
    }
    symbols.push(symbol)?;
    Ok(symbols)
}

/// The number of the dynamic symbol of an import.
#[tactic(auto, using(crate::proofs::Few::past_is_last, crate::proofs::Few::symbols_length, crate::proofs::Few::symbol_here))]
pub fn import_symbol(bindings: &Bindings, symbols: &[u32], number: u32) -> u32
    requires { symbols.now ≡ import_symbols bindings.now }
    ensures { result ≡ import_symbol bindings.now number }
{
    if number < bindings.len() {
        symbols[number as usize]
    } else {
        symbols[bindings.len() as usize]
    }
}
