ghost use Rattle.std.specs.Prelude.{◌≡◌, ◌+◌, ◌*◌, ◌≤◌, false, length};
ghost use Rattle.c6x_elf.specs.TableEntries.{dynamic_at, rela_at, symbol_at};

use c6x_elf::{Dyn, Rela, Symbol};
use c6x_elf_headers::{read_half, read_word};

/// The symbol with this number, which is wholly in the table.
#[tactic(auto, unfolding(c6x_elf_headers::specs::Entries::symbol_at))]
pub fn symbol_in(table: &[u8], number: usize) -> Symbol
    requires { 16 * number + 16 ≤ length table.now }
    ensures { result ≡ symbol_at false table.now number }
{
    let at = 16 * number;
    Symbol {
        name: read_word(false, table, at),
        value: read_word(false, table, at + 4),
        size: read_word(false, table, at + 8),
        info: table[at + 12],
        other: table[at + 13],
        section: read_half(false, table, at + 14),
    }
}

/// The relocation entry with this number.
#[tactic(auto, unfolding(c6x_elf_headers::specs::Entries::rela_at))]
pub fn rela_in(table: &[u8], number: usize) -> Rela
    requires { 12 * number + 12 ≤ length table.now }
    ensures { result ≡ rela_at false table.now number }
{
    let at = 12 * number;
    Rela {
        offset: read_word(false, table, at),
        info: read_word(false, table, at + 4),
        addend: read_word(false, table, at + 8).cast_signed(),
    }
}

/// The dynamic entry with this number.
#[tactic(auto, unfolding(c6x_elf_headers::specs::Entries::dynamic_at))]
pub fn entry_in(table: &[u8], number: usize) -> Dyn
    requires { 8 * number + 8 ≤ length table.now }
    ensures { result ≡ dynamic_at false table.now number }
{
    Dyn {
        tag: read_word(false, table, 8 * number),
        value: read_word(false, table, 8 * number + 4),
    }
}
