//! The areas of a process, and what it may do with the bytes in them.
//!
//! Areas may overlap: a byte may be used where some area that has it gives the right. An access may be made where each of
//! its bytes may be used so, whichever areas they lie in.
#![tactic(auto)]

mod area;
mod laws;
mod map;
mod reach;
mod right;

pub use area::Area;
pub use laws::access_is_of_each_byte;
pub use map::Map;
pub use right::Right;
