//! `map` and `run` of a plan: it and its modules are fetched, its processes are bound, placed and loaded, the report is
//! put, and `run` gives them turns of a policy's choice up to the end of each.
//!
//! Nothing is written before the plan is taken in whole, and no line takes memory. `specs/` says besides how any command
//! ends (`Outcome`): what it leaves on its devices where all was done, where a device failed or where memory ran out,
//! and what its status shows.
#![tactic(auto)]

mod bases;
mod ending;
mod ends;
mod images;
mod labels;
mod laws;
mod lines;
mod loading;
mod mapping;
mod placing;
mod preparing;
mod running;
mod starting;
mod telling;
mod turn_lines;
mod values;

pub use images::take_image;
pub use laws::board_is_of_all;
pub use loading::Loading;
pub use mapping::put_map;
pub use placing::place_plan;
pub use preparing::prepare_loading;
pub use running::{put_run, run_to_ends};
pub use starting::load_plan;
