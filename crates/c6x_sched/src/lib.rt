//! Processes that take turns on one board, as loading leaves them.
//!
//! A [`System`] asks a policy, lent in a box, whom to run and for how long, until every process has ended. What a
//! process does in its turns is what it does alone: no turn changes a byte of another.
#![tactic(auto)]

mod chosen;
mod laws;
mod loaded;
mod one_turn;
mod ready;
mod run_at;
mod system;
mod turn;

pub use laws::{
    one_play_of_a_length, one_whole_play, ready_are_those_that_run, state_is_left,
    whole_play_is_told,
};
pub use loaded::Loaded;
pub use system::System;
pub use turn::Turn;
