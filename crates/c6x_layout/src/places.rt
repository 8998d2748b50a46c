ghost use Rattle.std.specs.Prelude.{◌≡◌, ◌^◌, ◌≤◌};
ghost use Rattle.c6x_layout.specs.FilePlaces.{AreInOrder, entry_count, places_of};

use crate::counts::Counts;
use c6x_base::least_multiple;

/// Where the tables of a linked module stand, in bytes from the start of its text.
#[derive(Clone, Copy, Debug, PartialEq, Eq)]
pub struct Places {
    pub hash: u64,
    pub symbols: u64,
    pub strings: u64,
    pub relas: u64,
    pub jumps: u64,
    pub dynamic: u64,
    /// The end of the text.
    pub end: u64,
}

/// How many dynamic entries there are, DT_NULL among them.
#[tactic(auto, unfolding(crate::specs::FilePlaces::entry_count))]
pub fn entry_count(counts: &Counts) -> u64
    requires { counts.now.named ≤ 2 ^ 40 }
    ensures value { result ≡ entry_count counts.now }
    ensures few { result ≤ 2 ^ 41 }
{
    let relas = if counts.relas == 0 { 0 } else { 3 };
    let jumps = if counts.jumps == 0 { 0 } else { 3 };
    counts.named + 5 + relas + jumps + 4
}

/// Where the tables stand.
#[tactic(auto, unfolding(crate::specs::FilePlaces::places_of, crate::specs::FilePlaces::hash_at, crate::specs::FilePlaces::symbols_at, crate::specs::FilePlaces::strings_at, crate::specs::FilePlaces::relas_at, crate::specs::FilePlaces::jumps_at, crate::specs::FilePlaces::dynamic_at, crate::specs::FilePlaces::text_size))]
pub fn places_of(counts: &Counts) -> Places
    requires code { counts.now.code ≤ 2 ^ 60 }
    requires symbols { counts.now.symbols ≤ 2 ^ 40 }
    requires strings { counts.now.strings ≤ 2 ^ 60 }
    requires relas { counts.now.relas ≤ 2 ^ 40 }
    requires jumps { counts.now.jumps ≤ 2 ^ 40 }
    requires named { counts.now.named ≤ 2 ^ 40 }
    ensures value { result ≡ places_of counts.now }
    ensures order { AreInOrder result }
{
    let hash = least_multiple(counts.code, 4);
    let symbols = hash + 4 * (2 + 2 * counts.symbols);
    let strings = symbols + 16 * counts.symbols;
    let relas = least_multiple(strings + counts.strings, 4);
    let jumps = relas + 12 * counts.relas;
    let dynamic = jumps + 12 * counts.jumps;
    Places {
        hash,
        symbols,
        strings,
        relas,
        jumps,
        dynamic,
        end: dynamic + 8 * entry_count(counts),
    }
}
