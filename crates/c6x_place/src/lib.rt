//! Binding and placement of the processes of a plan (SPRAB89, "Dynamic Linking"; gABI chapter 5, "Shared Object
//! Dependencies").
//!
//! [`bind`] says which modules each process is made of and what their fields stand for, or names the first broken rule
//! (`specs/Binding.antt`). [`place`] says where their ranges stand in the memory, in an order and by steps that are this
//! project's own: the texts first, then for each process its data ranges and its stack, each at its least place behind
//! the one before (`specs/Plans.antt`).
#![tactic(auto)]

mod bind_error;
mod bind_rule;
mod binding;
mod bound;
mod bound_process;
mod fields;
mod found;
mod indices;
mod laws;
pub mod limits;
mod lookups;
mod needs;
mod place_error;
mod placement;
mod places;
mod placing;
mod process;
mod room;
mod rooms;
mod rules;
mod seat;
mod target;
mod targets;
mod used;

pub use bind_error::BindError;
pub use bind_rule::BindRule;
pub use binding::bind;
pub use bound::Bound;
pub use bound_process::BoundProcess;
pub use laws::one_placement;
pub use place_error::PlaceError;
pub use placement::Placement;
pub use placing::place;
pub use room::Room;
pub use seat::Seat;
pub use target::Target;
