ghost use Rattle.std.specs.Prelude.{◌≡◌, ◌+◌, ◌<◌, ◌≤◌, ◌^◌, IfOk, length, map};
ghost use Rattle.std.specs.List.{range_with_len};
ghost use Rattle.c6x_dsbt.specs.Needs.{stub_place, word_place};
ghost use Rattle.c6x_dsbt.specs.declared.wanted.Wanted.TheVariants.{Bound};
ghost use Rattle.c6x_link.specs.Rooms.{HasRoom};
ghost use Rattle.c6x_link.specs.Targets.{dynamic_start, dynamic_symbol, import_symbol, number_of_bound, reach_of, stub_or, symbol_of_region, target_of, word_or};

use crate::address::wanted_address;
use crate::link_value::Link;
use crate::target::Target;
use c6x_dsbt::Wanted;
use c6x_layout::file_limits::TEXT_START;
use c6x_layout::limits::STUB_BYTES;
use c6x_symbols::Region;
use std::alloc::{AllocError, Global};

/// What a symbol is at link addresses, where `import` is the number of its dynamic symbol if it is an import.
#[tactic(auto, unfolding(crate::specs::Targets::target_of))]
pub fn target_of(link: &Link, wanted: Wanted, import: u32) -> Target
    requires room { HasRoom link.now }
    requires import { import ≡ number_of_bound link.now.bindings wanted }
    ensures { result ≡ target_of link.now wanted }
{
    let region = link.wanted_region(wanted);
    Target {
        region,
        address: wanted_address(link, wanted),
        reach: reach_of(link, wanted),
        word: word_of(link, wanted),
        symbol: dynamic_symbol(region, import),
        start: dynamic_start(link, region),
    }
}

/// Where a branch to a symbol goes.
fn reach_of(link: &Link, wanted: Wanted) -> u32
    requires { HasRoom link.now }
    ensures { result ≡ reach_of link.now wanted }
{
    match wanted {
        Wanted::Bound(number) => match link.tables().stubs.find(number) {
            Some(place) => link.layout().stubs + STUB_BYTES * place as u32,
            None => wanted_address(link, wanted),
        },
        Wanted::Local { .. } => wanted_address(link, wanted),
    }
}

/// The address of a symbol's value word; 0 where it has none.
fn word_of(link: &Link, wanted: Wanted) -> u32
    requires { HasRoom link.now }
    ensures { result ≡ word_or link.now (word_place link.now.words wanted) }
{
    match link.tables().words.find(wanted) {
        Some(place) => link.layout().words + 4 * place as u32,
        None => 0,
    }
}

/// The dynamic symbol by which the loader finds what lies in this region.
fn dynamic_symbol(region: Region, import: u32) -> u32
    ensures { result ≡ symbol_of_region region import }
{
    match region {
        Region::Text => 1,
        Region::Data => 2,
        Region::Import => import,
        Region::Absolute => 0,
    }
}

/// The address of that symbol in the file.
fn dynamic_start(link: &Link, region: Region) -> u32
    ensures { result ≡ dynamic_start link.now region }
{
    match region {
        Region::Text => TEXT_START,
        Region::Data => link.layout().table,
        Region::Import | Region::Absolute => 0,
    }
}
