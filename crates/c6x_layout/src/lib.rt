//! The addresses of a linked file (SPRAB89, "Dynamic Linking"; where its parts lie is this project's own), and the file
//! of a linked module from its parts (System V gABI, chapter 5).
//!
//! A law says of each layout that the parts of the file lie apart and in order.
#![tactic(auto)]

mod aligning;
mod code;
mod commons;
mod counting;
mod counts;
mod ends;
mod entries;
pub mod file_limits;
mod filing;
mod finishing;
mod group;
mod hashing;
mod laid_text;
mod laws;
mod laying;
mod layout;
pub mod limits;
mod name_tables;
mod naming;
mod naming_parts;
mod parts;
mod place;
mod places;
mod placing;
mod regions;
mod shared;
mod shared_names;
mod sizes;
mod sizing;
mod spreading;
mod strings;
mod tables;
mod whole;
mod working;

pub use counts::Counts;
pub use filing::linked_file;
pub use laws::parts_are_apart;
pub use layout::Layout;
pub use parts::Parts;
pub use place::Place;
pub use regions::{Regions, regions_of};
pub use shared::Shared;
pub use whole::lay_out;
