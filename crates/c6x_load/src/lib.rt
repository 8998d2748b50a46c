//! The processes of a plan, loaded (SPRAB89, "DSBT Model"): [`load`] writes their start bytes and makes the processes.
//!
//! What a data range holds is its file bytes with its table and its fields (`specs/Values.antt`). What loading writes is
//! a list of parts (`specs/Loaded.antt`): bytes and the address where they stand; writing them takes no memory. A
//! process before its first cycle has its areas and its start registers, and stands for its start wherever the memory
//! holds the start bytes.
#![tactic(auto)]

mod address;
mod areas;
mod fields;
mod fill_laws;
mod filling;
mod loading;
mod make;
mod plan_loading;
mod process_laws;
mod processes;
mod range;
mod seats;
mod slots;
mod starts;
mod table;
mod texts;

pub use c6x_sched::Loaded;
pub use fill_laws::{data_holds, ranges_are_read_back};
pub use loading::load;
pub use plan_loading::load_parts;
pub use process_laws::placed_are_below;
