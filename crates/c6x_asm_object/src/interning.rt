ghost use Rattle.std.specs.Prelude.{◌≡◌, ◌<◌, ◌++◌, ◌∷◌, [], None, IfOk, IfSome, OnOk, vec_len};
ghost use Rattle.c6x_asm_lines.specs.Bytes.{bytes_at};
ghost use Rattle.c6x_asm_object.specs.Symbols.{symbol_at, fresh, or_added, interned};
ghost use Rattle.c6x_asm_object.specs.Named.{AreNamed};

use crate::symbol::Symbol;
use crate::symbols::Symbols;
use c6x_asm_lines::{Word, bytes_at};
use std::alloc::AllocError;

/// The place of a word's name among the names so far.
#[tactic(auto, using(crate::proofs::Kept::name_of_symbol))]
pub fn symbol_at(text: &[u8], symbols: &Symbols, word: Word) -> Option<usize>
    requires named { AreNamed text.now symbols.now }
    ensures is { result ≡ symbol_at text.now symbols.now.list.items (bytes_at text.now word.at word.len) }
    ensures there { IfSome result (λ i. i < vec_len symbols.now.list) }
{
    symbols.names.find(bytes_at(text, word.at, word.len))
}

#[tactic(auto, unfolding(crate::specs::Symbols::fresh))]
fn fresh(word: Word) -> Symbol
    ensures { result ≡ fresh word }
{
    Symbol {
        at: word.at,
        len: word.len,
        definition: None,
        global: false,
        weak: false,
        hidden: false,
    }
}

// Adds a name that is not there.
#[tactic(auto, unfolding(crate::specs::Symbols::fresh), using(crate::proofs::Kept::name_of_symbol, crate::proofs::Kept::total_push, crate::proofs::Kept::names_push))]
fn add_symbol<'a>(text: &'a [u8], symbols: &mut Symbols<'a>, word: Word) -> Result<(), AllocError>
    requires named { AreNamed text.now symbols.old }
    requires absent { symbol_at text.now symbols.old.list.items (bytes_at text.now word.at word.len) ≡ None }
    ensures is { OnOk result (symbols.new.list.items ≡ symbols.old.list.items ++ fresh word ∷ []) }
    ensures named { OnOk result (AreNamed text.now symbols.new) }
{
    let name = bytes_at(text, word.at, word.len);
    // That the names of one text never take so much is not proved: it counts as want of memory.
    let Some(names_len) = symbols.names_len.checked_add(name.len() + 1) else {
        return Err(AllocError);
    };
    symbols.list.push(fresh(word)).map_err(AllocError::from)?;
    symbols.names.add(name)?;
    symbols.names_len = names_len;
    Ok(())
}

/// The place of a name, which is added at the end if it is new.
#[tactic(auto, unfolding(crate::specs::Symbols::interned))]
pub fn intern<'a>(
    text: &'a [u8],
    symbols: &mut Symbols<'a>,
    word: Word,
) -> Result<usize, AllocError>
    requires named { AreNamed text.now symbols.old }
    ensures is { IfOk result (λ i. interned text.now symbols.old.list.items word ≡ (symbols.new.list.items, i)) }
    ensures there { IfOk result (λ i. i < vec_len symbols.new.list) }
    ensures named { OnOk result (AreNamed text.now symbols.new) }
{
    match symbol_at(text, symbols, word) {
        Some(i) => Ok(i),
        None => {
            let i = symbols.list.len();
            add_symbol(text, symbols, word)?;
            Ok(i)
        }
    }
}
