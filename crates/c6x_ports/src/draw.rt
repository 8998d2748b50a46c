ghost use Rattle.std.specs.Prelude.{◌≡◌, ◌≤◌};
ghost use Rattle.c6x_ports.specs.Picks.{IsReady, next_drawn, drawn_pick};

use crate::pick::Pick;

/// A number that was drawn is multiplied by this one,
pub(crate) const DRAW_FACTOR: u32 = 1_664_525;

/// and this one is added, for the next number.
pub(crate) const DRAW_STEP: u32 = 1_013_904_223;

/// The number behind another one in the order in which they are drawn.
#[tactic(auto, unfolding(crate::specs::Picks::next_drawn))]
pub(crate) fn next_drawn(number: u32) -> u32
    ensures { result ≡ next_drawn number }
{
    ((number as u64 * DRAW_FACTOR as u64 + DRAW_STEP as u64) % (1 << 32)) as u32
}

/// What is picked with a number that was drawn.
#[tactic(auto, unfolding(crate::specs::Picks::drawn_pick))]
pub(crate) fn drawn_pick(quantum: u32, drawn: u32, ready: &[u32]) -> Pick
    requires ready { IsReady ready.now }
    requires quantum { 1 ≤ quantum }
    ensures { result ≡ drawn_pick quantum drawn ready.now }
{
    let high = (drawn / 256) as usize;
    Pick {
        process: ready[high % ready.len()],
        steps: 1 + (high / ready.len() % quantum as usize) as u32,
    }
}
