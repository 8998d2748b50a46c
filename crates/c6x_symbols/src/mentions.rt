ghost use Rattle.std.specs.Prelude.{◌≡◌, ◌+◌, ◌*◌, ◌^◌, ◌<◌, ◌≤◌, ◌++◌, false, List, All, OnOk, IfOk, length};
ghost use Rattle.c6x_symbols.specs.Objects.{IsObject};
ghost use Rattle.c6x_plan.specs.declared.limits.TheConstants.{MOST_OBJECTS};
ghost use Rattle.c6x_symbols.specs.Growth.{AreGroups};
ghost use Rattle.c6x_symbols.specs.Mentions.{Named, mention_of, mentions_along, mentions_of, object_mentions, strings_of};

use crate::groups::{Groups, add};
use crate::mention::Mention;
use c6x_elf::{
    File, Section, Symbol, SymbolBinding, name_at, section_bytes, symbol_table, symbols,
};
use std::alloc::{AllocError, Global};

/// What is known of every name of the objects.
#[tactic(auto, unfolding(crate::specs::Mentions::mentions_of), using(crate::proofs::Mentioned::mentions_more))]
pub fn groups_of(alloc: Global, objects: &[File]) -> Result<Groups, AllocError>
    requires few { length objects.now ≤ MOST_OBJECTS }
    requires form { All (IsObject false) objects.now }
    ensures groups { IfOk result (λ groups. AreGroups (mentions_of objects.now) groups.names groups.list.items) }
    ensures few { IfOk result (λ groups. length groups.names ≤ 2 ^ 28) }
{
    let mut groups = Groups::new(alloc);
    for (number, object) in objects.iter().enumerate() {
        add_object(alloc, &mut groups, number as u32, object)?;
    }
    Ok(groups)
}

/// Adds the symbols of an object.
#[tactic(auto, unfolding(crate::specs::Mentions::object_mentions), using(crate::proofs::Counts::symbols_few))]
fn add_object<'a>(
    alloc: Global,
    groups: &mut Groups<'a>,
    number: u32,
    object: &'a File,
) -> Result<(), AllocError>
    requires same { length groups.old.list.items ≡ length groups.old.names }
    requires form { IsObject false object.now }
    ensures groups { OnOk result ((xs : List Named) → AreGroups xs groups.old.names groups.old.list.items → AreGroups (xs ++ object_mentions number object.now.sections) groups.new.names groups.new.list.items) }
    ensures same { OnOk result (length groups.new.list.items ≡ length groups.new.names) }
    ensures few { OnOk result (length groups.new.names ≤ length groups.old.names + 2 ^ 20) }
{
    let sections = object.sections.as_slice();
    let table = symbols(alloc, false, sections)?;
    add_symbols(groups, number, &table, strings_of(sections))
}

/// Adds the symbols of a table.
#[tactic(auto, using(crate::proofs::Mentioned::more_mentions, crate::proofs::Grouping::no_more))]
fn add_symbols<'a>(
    groups: &mut Groups<'a>,
    object: u32,
    table: &[Symbol],
    strings: &'a [u8],
) -> Result<(), AllocError>
    requires same { length groups.old.list.items ≡ length groups.old.names }
    requires few { length table.now ≤ 2 ^ 20 }
    ensures groups { OnOk result ((xs : List Named) → AreGroups xs groups.old.names groups.old.list.items → AreGroups (xs ++ mentions_along strings.now object 0 table.now) groups.new.names groups.new.list.items) }
    ensures same { OnOk result (length groups.new.list.items ≡ length groups.new.names) }
    ensures few { OnOk result (length groups.new.names ≤ length groups.old.names + length table.now) }
{
    for (number, symbol) in table.iter().enumerate() {
        add_symbol(groups, object, number as u32, symbol, strings)?;
    }
    Ok(())
}

/// Adds a symbol, if other objects may see it.
#[tactic(auto, unfolding(crate::specs::Mentions::mention_of), using(crate::proofs::Grouping::no_more))]
fn add_symbol<'a>(
    groups: &mut Groups<'a>,
    object: u32,
    number: u32,
    symbol: &Symbol,
    strings: &'a [u8],
) -> Result<(), AllocError>
    requires same { length groups.old.list.items ≡ length groups.old.names }
    ensures groups { OnOk result ((xs : List Named) → AreGroups xs groups.old.names groups.old.list.items → AreGroups (xs ++ mention_of strings.now object number symbol.now) groups.new.names groups.new.list.items) }
    ensures same { OnOk result (length groups.new.list.items ≡ length groups.new.names) }
    ensures few { OnOk result (length groups.new.names ≤ length groups.old.names + 1) }
{
    let Some(name) = name_at(strings, symbol.name) else {
        return Ok(());
    };
    let mention = Mention {
        object,
        number,
        symbol: *symbol,
    };
    match symbol.binding() {
        SymbolBinding::Local => Ok(()),
        SymbolBinding::Global | SymbolBinding::Weak => add(groups, name, mention),
    }
}

/// The strings of the names of an object's symbols.
#[tactic(auto, unfolding(crate::specs::Mentions::strings_of), using(crate::proofs::Counts::link_here))]
pub fn strings_of(sections: &[Section]) -> &[u8]
    ensures { result.now ≡ strings_of sections.now }
{
    match symbol_table(sections) {
        Some(number) => section_bytes(sections, sections[number].link),
        None => &[],
    }
}
