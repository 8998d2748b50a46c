//! Numbers, names and texts that every layer uses, and the search list of a process.
//!
//! A [`Name`] and a [`Bytes`] are seen by contracts as lists of bytes, a [`Row`] as the list of its items, and a
//! [`Line`] as the bytes pushed so far.
//!
//! [`search`] gives the one list in which every module that a member needs is a member, breadth first, over the numbers
//! of modules (gABI chapter 5, "Shared Object Dependencies"). Which modules a module's names are is worked out by the
//! caller, so a name that no module has is no part of this.
#![tactic(auto)]

mod breadth;
mod bytes;
mod hex;
mod laws;
pub mod limits;
mod line;
mod name;
mod numbers;
mod places;
mod range;
mod row;
mod side;

pub use breadth::search;
pub use bytes::Bytes;
pub use hex::hex_word;
pub use laws::one_search;
pub use line::Line;
pub use name::Name;
pub use numbers::{bits, sign_extend, with_bits};
pub use places::{least_multiple, least_place, round_up};
pub use range::Range;
pub use row::Row;
pub use side::Side;
