//! What a link works out is read as a module (SPRAB89, "Dynamic Linking").
//!
//! There are laws here alone: over the file that `c6x_layout` makes of its parts and the module that `c6x_module`
//! defines for a file, and over the value that `c6x_link` answers.
#![tactic(auto)]

mod laws;
mod reading_laws;

pub use laws::{linked_bytes_load, links_load};
pub use reading_laws::{linked_files_load, written_files_load};
