ghost use Rattle.std.specs.Prelude.{◌≡◌, ◌<◌, OnOk, vec_len};
ghost use Rattle.c6x_asm_object.specs.Named.{AreNamed};
ghost use Rattle.c6x_asm_object.specs.Symbols.{symbol_of};
ghost use Rattle.c6x_asm.specs.States.{placed_at, with_attribute, symbol_changed, name_changed, definition_of, fault_of_definition, placed_fault};

use c6x_asm_instr::SymbolAttribute;
use c6x_asm_lines::{AsmRule, Word};
use c6x_asm_object::{Definition, Symbol, Symbols, intern, symbol_at};
use std::alloc::AllocError;

#[tactic(auto, using(std::proofs::lemmas::List::get_or_default))]
fn define(list: &mut Vec<Symbol>, i: usize, definition: Definition)
    requires { i < vec_len list.old }
    ensures { list.new.items ≡ symbol_changed list.old.items i (placed_at definition) }
{
    let symbol = list[i];
    list[i] = Symbol {
        definition: Some(definition),
        ..symbol
    };
}

fn with_attribute(attribute: SymbolAttribute, symbol: Symbol) -> Symbol
    ensures { result ≡ with_attribute attribute symbol }
{
    match attribute {
        SymbolAttribute::Global => Symbol {
            global: true,
            ..symbol
        },
        SymbolAttribute::Weak => Symbol {
            weak: true,
            ..symbol
        },
        SymbolAttribute::Hidden => Symbol {
            hidden: true,
            ..symbol
        },
    }
}

#[tactic(auto, using(std::proofs::lemmas::List::get_or_default))]
fn set_attribute_at(list: &mut Vec<Symbol>, i: usize, attribute: SymbolAttribute)
    requires { i < vec_len list.old }
    ensures { list.new.items ≡ symbol_changed list.old.items i (with_attribute attribute) }
{
    let symbol = list[i];
    list[i] = with_attribute(attribute, symbol);
}

/// Gives a name its place.
#[tactic(auto, unfolding(crate::specs::States::name_changed), using(crate::proofs::Sound::names_placed, crate::proofs::Sound::total_placed))]
pub fn place<'a>(
    text: &'a [u8],
    symbols: &mut Symbols<'a>,
    word: Word,
    definition: Definition,
) -> Result<(), AllocError>
    requires named { AreNamed text.now symbols.old }
    ensures is { OnOk result (symbols.new.list.items ≡ name_changed text.now symbols.old.list.items word (placed_at definition)) }
    ensures named { OnOk result (AreNamed text.now symbols.new) }
{
    let i = intern(text, symbols, word)?;
    define(&mut symbols.list, i, definition);
    Ok(())
}

/// Sets an attribute of a name.
#[tactic(auto, unfolding(crate::specs::States::name_changed), using(crate::proofs::Sound::names_marked, crate::proofs::Sound::total_marked))]
pub fn set_attribute<'a>(
    text: &'a [u8],
    symbols: &mut Symbols<'a>,
    word: Word,
    attribute: SymbolAttribute,
) -> Result<(), AllocError>
    requires named { AreNamed text.now symbols.old }
    ensures is { OnOk result (symbols.new.list.items ≡ name_changed text.now symbols.old.list.items word (with_attribute attribute)) }
    ensures named { OnOk result (AreNamed text.now symbols.new) }
{
    let i = intern(text, symbols, word)?;
    set_attribute_at(&mut symbols.list, i, attribute);
    Ok(())
}

/// `DuplicateLabel` where the name has a place already.
#[tactic(auto, unfolding(crate::specs::States::placed_fault), using(std::proofs::lemmas::List::get_or_default))]
pub fn placed_fault(text: &[u8], symbols: &Symbols, word: Word) -> Option<AsmRule>
    requires named { AreNamed text.now symbols.now }
    ensures is { result ≡ placed_fault text.now symbols.now.list.items word }
{
    match symbol_at(text, symbols, word) {
        None => None,
        Some(i) => match symbols.list[i].definition {
            None => None,
            Some(_) => Some(AsmRule::DuplicateLabel),
        },
    }
}
