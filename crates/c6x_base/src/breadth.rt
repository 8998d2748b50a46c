ghost use Rattle.std.specs.Prelude.{◌≡◌, ◌<◌, ◌≤◌, length, IfOk, OnOk};
ghost use Rattle.c6x_base.specs.Search.{IsSearch, AreNeeds, AreBelow, search_of, has, joined, with_new, needs_at};

use crate::row::Row;
use std::alloc::{AllocError, Global};

/// The search list of a module, where `needs` says for each module which modules it needs, in the order of its entries.
/// Its members are numbers of modules, and it has no more of them than there are modules.
pub fn search(alloc: Global, needs: &[Row<u32>], start: u32) -> Result<Vec<u32>, AllocError>
    requires first { start < length needs.now }
    requires known { AreNeeds (length needs.now) needs.now }
    ensures value { IfOk result (λ list. list.items ≡ search_of needs.now start) }
    ensures list { IfOk result (λ list. IsSearch needs.now start list.items) }
    ensures few { IfOk result (λ list. length list.items ≤ length needs.now) }
    ensures members { IfOk result (λ list. AreBelow (length needs.now) list.items) }
{
    looked_at_all(alloc, needs, start)
}

/// What the members bring in, place by place. A place past the end of the list adds nothing.
#[tactic(auto, unfolding(crate::specs::Search::search_of))]
fn looked_at_all(alloc: Global, needs: &[Row<u32>], start: u32) -> Result<Vec<u32>, AllocError>
    ensures { IfOk result (λ list. list.items ≡ search_of needs.now start) }
{
    let mut list = Vec::new(alloc);
    list.push(start)?;
    for place in 0..needs.len() {
        look(needs, &mut list, place)?;
    }
    Ok(list)
}

/// Puts last what the member at a place needs and the list lacks.
fn look(needs: &[Row<u32>], list: &mut Vec<u32>, place: usize) -> Result<(), AllocError>
    ensures { OnOk result (list.new.items ≡ joined list.old.items (needs_at needs.now list.old.items place)) }
{
    if list.len() <= place {
        return Ok(());
    }
    let member = list[place] as usize;
    if needs.len() <= member {
        return Ok(());
    }
    add_all(list, needs[member].as_slice())
}

/// Puts the numbers last that the list lacks.
fn add_all(list: &mut Vec<u32>, numbers: &[u32]) -> Result<(), AllocError>
    ensures { OnOk result (list.new.items ≡ joined list.old.items numbers.now) }
{
    for number in numbers {
        add(list, *number)?;
    }
    Ok(())
}

/// Puts a number last, where the list lacks it.
fn add(list: &mut Vec<u32>, number: u32) -> Result<(), AllocError>
    ensures { OnOk result (list.new.items ≡ with_new list.old.items number) }
{
    if !has(list, number) {
        list.push(number)?;
    }
    Ok(())
}

/// A number stands in a list.
fn has(list: &[u32], number: u32) -> bool
    ensures { result ≡ has list.now number }
{
    for member in list {
        if *member == number {
            return true;
        }
    }
    false
}
