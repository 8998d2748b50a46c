ghost use Rattle.std.specs.Prelude.{◌≡◌, ◌+◌, ◌*◌, ◌^◌, ◌<◌, ◌≤◌, ◌++◌, IfOk, OnOk, length, map};
ghost use Rattle.std.specs.List.{enumerate_from};
ghost use Rattle.c6x_dsbt.specs.declared.wanted.Wanted.{Wanted as WantedOf};
ghost use Rattle.c6x_layout.specs.Dynamics.{is_filled_word};
ghost use Rattle.c6x_link.specs.Sections.{one_of};
ghost use Rattle.c6x_link.specs.Words.{import_symbols, rela_on, stub_rela, stub_relas, word_rela, word_relas};
ghost use Rattle.c6x_link.specs.Rooms.{HasRoom};
ghost use Rattle.c6x_link.specs.TargetRows.{bound_targets};
ghost use Rattle.c6x_link.specs.Targets.{import_symbol, target_of};
ghost use Rattle.c6x_link.specs.Worked.{HasFewSymbols};

use crate::bound_names::bound_targets;
use crate::entering::target_in;
use crate::import_symbols::{import_symbol, import_symbols};
use crate::link_value::Link;
use crate::target::Target;
use crate::values::{is_filled, word_list};
use c6x_dsbt::{Stubs, Wanted};
use c6x_elf::Rela;
use c6x_reloc::{RelocKind, number_of};
use std::alloc::{AllocError, Global};

/// The entry of the value word at this place on a symbol that moves.
#[tactic(auto, unfolding(crate::specs::Words::rela_on))]
fn rela_on(link: &Link, place: u32, target: &Target) -> Rela
    requires place { link.now.layout.words + 4 * place < 2 ^ 32 }
    requires symbol { target.now.symbol < 2 ^ 24 }
    ensures { result ≡ rela_on link.now place target.now }
{
    let addend = target.address.wrapping_sub(target.start).cast_signed();
    Rela::new(
        link.layout().words + 4 * place,
        target.symbol,
        number_of(RelocKind::ABS32),
        addend,
    )
}

/// Puts the entry of a value word, if the loader fills it.
#[tactic(auto, unfolding(crate::specs::Words::word_rela))]
fn put_word(
    relas: &mut Vec<Rela>,
    link: &Link,
    bound: &[Target],
    place: u32,
    wanted: Wanted,
) -> Result<(), AllocError>
    requires room { HasRoom link.now }
    requires few { HasFewSymbols link.now }
    requires place { place < length link.now.words }
    requires bound { bound.now ≡ bound_targets link.now (length link.now.bindings) }
    ensures { OnOk result (relas.new.items ≡ relas.old.items ++ word_rela link.now (place, wanted)) }
{
    if !is_filled(link, wanted) {
        return Ok(());
    }
    let target = target_in(link, bound, wanted);
    relas.push(rela_on(link, place, &target))?;
    Ok(())
}

/// The entries of the value words that the loader fills, in order.
#[tactic(auto, unfolding(crate::specs::Words::word_relas), using(c6x_symbols::proofs::Numbered::numbered_alone))]
pub fn word_relas(alloc: Global, link: &Link) -> Result<Vec<Rela>, AllocError>
    requires room { HasRoom link.now }
    requires few { HasFewSymbols link.now }
    ensures { IfOk result (λ relas. relas.items ≡ word_relas link.now) }
{
    let bound = bound_targets(alloc, link)?;
    let list = word_list(alloc, &link.tables().words)?;
    let mut relas = Vec::new(alloc);
    for (place, wanted) in list.iter().enumerate() {
        put_word(&mut relas, link, &bound, place as u32, *wanted)?;
    }
    Ok(relas)
}

/// The entry of the word of the stub at this place, which has this import's address.
#[tactic(auto, unfolding(crate::specs::Words::stub_rela))]
fn stub_rela(link: &Link, symbols: &[u32], place: u32, number: u32) -> Rela
    requires room { HasRoom link.now }
    requires few { HasFewSymbols link.now }
    requires place { place < length link.now.stubs }
    requires symbols { symbols.now ≡ import_symbols link.now.bindings }
    ensures { result ≡ stub_rela link.now (place, number) }
{
    let before = link.tables().words.len() as u32;
    Rela::new(
        link.layout().words + 4 * (before + place),
        import_symbol(link.bindings(), symbols, number),
        number_of(RelocKind::JUMP_SLOT),
        0,
    )
}

/// The imports with a stub, in order.
#[tactic(auto, using(crate::proofs::Listed::taken_more, crate::proofs::Listed::taken_all))]
fn stub_list(alloc: Global, stubs: &Stubs) -> Result<Vec<u32>, AllocError>
    ensures { IfOk result (λ list. list.items ≡ stubs.now) }
{
    let mut list = Vec::new(alloc);
    for place in 0..stubs.len() {
        put_one(&mut list, stubs.get(place))?;
    }
    Ok(list)
}

/// Adds what is there.
fn put_one(list: &mut Vec<u32>, one: Option<u32>) -> Result<(), AllocError>
    ensures { OnOk result (list.new.items ≡ list.old.items ++ one_of one) }
{
    match one {
        Some(number) => list.push(number).map_err(AllocError::from),
        None => Ok(()),
    }
}

/// The entries of the stubs' words, in order.
#[tactic(auto, unfolding(crate::specs::Words::stub_relas), using(crate::proofs::Listed::numbered_rows))]
pub fn stub_relas(alloc: Global, link: &Link) -> Result<Vec<Rela>, AllocError>
    requires room { HasRoom link.now }
    requires few { HasFewSymbols link.now }
    ensures { IfOk result (λ relas. relas.items ≡ stub_relas link.now) }
{
    let symbols = import_symbols(alloc, link.bindings())?;
    let list = stub_list(alloc, &link.tables().stubs)?;
    let mut relas = Vec::new(alloc);
    for (place, number) in list.iter().enumerate() {
        relas.push(stub_rela(link, &symbols, place as u32, *number))?;
    }
    Ok(relas)
}
