ghost use Rattle.std.specs.Prelude.{◌≡◌, ◌<◌, ◌^◌, length};
ghost use Rattle.c6x_asm_object.specs.Limits.{is_large};
ghost use Rattle.c6x_asm_object.specs.Symbols.{names_total};
ghost use Rattle.c6x_asm_object.specs.Passing.{has_long, passes, symbol_bytes, whole_size};
ghost use Rattle.c6x_asm_object.specs.Sums.{AreBlocks};

use crate::asm_section::AsmSection;
use crate::outline::Outline;
use crate::placing::end;
use crate::summary::Summary;
use crate::summing::is_past;
use crate::symbol::Symbol;
use c6x_base::limits::{MOST_FILE_BYTES, MOST_SECTIONS};

// The bytes of `.symtab`: the null symbol, the sections and the names.
fn symbol_bytes(sections: usize, symbols: usize) -> u128
    ensures is { result ≡ symbol_bytes sections symbols }
    ensures few { result < 2 ^ 100 }
{
    16 * (1 + sections as u128 + symbols as u128)
}

fn has_long(sections: usize, symbols: usize, names: usize, sum: Summary) -> bool
    ensures { result ≡ has_long sections symbols names sum }
{
    sum.heavy
        || is_past(symbol_bytes(sections, symbols))
        || is_past(1 + names as u128)
        || is_past(u128::from(sum.names) + 27)
}

// The bytes of the written form, where the sections of the text end at `at`.
fn whole_size(at: u64, sections: usize, symbols: usize, names: usize, sum: Summary) -> u128
    ensures { result ≡ whole_size at sections symbols names sum }
{
    let tables = (u128::from(at) + 3) / 4 * 4 + u128::from(sum.rows);
    let last = tables
        + symbol_bytes(sections, symbols)
        + (1 + names as u128)
        + (u128::from(sum.names) + 27);
    (last + 3) / 4 * 4 + 40 * (sections as u128 + u128::from(sum.tables) + 4)
}

#[tactic(auto, unfolding(crate::specs::Passing::passes))]
fn passes(at: u64, sections: usize, symbols: usize, names: usize, sum: Summary) -> bool
    ensures { result ≡ passes at sections symbols names sum }
{
    sections as u128 + u128::from(sum.tables) + 4 > u128::from(MOST_SECTIONS)
        || has_long(sections, symbols, names, sum)
        || whole_size(at, sections, symbols, names, sum) > u128::from(MOST_FILE_BYTES)
}

/// Whether the object of these sections and symbols of a text passes a limit; `names` is the number of bytes of the
/// symbols' names, each with a zero byte. The time is that of a walk over the blocks of the outline.
pub fn is_large(
    text: &[u8],
    sections: &[AsmSection],
    symbols: &[Symbol],
    names: usize,
    outline: &Outline,
) -> bool
    requires names { names ≡ names_total text.now symbols.now }
    requires blocks { AreBlocks text.now sections.now outline.now }
    ensures { result ≡ is_large text.now sections.now symbols.now }
{
    let sum = outline.sum();
    match end(sections, sum.stretch) {
        None => true,
        Some(at) => passes(at, sections.len(), symbols.len(), names, sum),
    }
}
