ghost use Rattle.std.specs.Prelude.{◌≡◌, ◌+◌, ◌^◌, ◌<◌, ◌≤◌, slice_get, slice_index};
ghost use Rattle.c6x_load.specs.Values.{text_at};
ghost use Rattle.c6x_load.specs.Loaded.{entry_or, start_of, table_or};

use c6x_machine::Start;
use c6x_modules::Modules;
use c6x_place::Seat;
use c6x_plan::ProcessPlan;

/// What a process starts with.
#[tactic(auto, unfolding(crate::specs::Loaded::start_of))]
pub fn start_of(modules: &Modules, plan: &ProcessPlan, texts: &[Option<u32>], seat: &Seat) -> Start
    requires low { 8 ≤ plan.now.stack }
    requires high { seat.now.stack + plan.now.stack < 2 ^ 32 }
    ensures { result ≡ start_of modules.now plan.now texts.now seat.now }
{
    Start {
        entry: entry_or(modules, plan.module, text_at(texts, plan.module)),
        b14: table_or(modules, plan.module, first_base(seat)),
        b15: seat.stack + plan.stack - 8,
        arg: plan.arg,
        limit: plan.limit,
    }
}

/// Where the data range of the executable stands.
fn first_base(seat: &Seat) -> u32
    ensures { result ≡ slice_index seat.now.bases 0 }
{
    match seat.bases.as_slice().first() {
        Some(base) => *base,
        None => 0,
    }
}

/// Where the text with this number stands.
fn text_at(texts: &[Option<u32>], number: u32) -> u32
    ensures { result ≡ text_at texts.now number }
{
    match texts.get(number as usize) {
        Some(Some(at)) => *at,
        _ => 0,
    }
}

/// The entry of the module with this number, moved with its text.
fn entry_or(modules: &Modules, number: u32, text: u32) -> u32
    ensures { result ≡ entry_or (slice_get modules.now number) text }
{
    match modules.as_slice().get(number as usize) {
        Some(image) => image
            .entry
            .wrapping_add(text.wrapping_sub(image.text.vaddr)),
        None => 0,
    }
}

/// Its table, moved with its data range.
fn table_or(modules: &Modules, number: u32, base: u32) -> u32
    ensures { result ≡ table_or (slice_get modules.now number) base }
{
    match modules.as_slice().get(number as usize) {
        Some(image) => image
            .table
            .wrapping_add(base.wrapping_sub(image.memory.vaddr)),
        None => 0,
    }
}
