//! The commands of `c6x` over a shelf of files, an output, an error output, a board and policies.
//!
//! `as` and `ld` fetch texts, plans and objects and store the file that was made; `gen` makes what a number stands for,
//! and runs it. Laws say what the bytes that `ld` stores are read as, what a plan that `map` or `run` takes in leaves of
//! linked modules (SPRAB89, "DSBT Model"), and that want of room alone stops `gen`.
#![tactic(auto)]

mod commit;
mod dispatch;
mod gen_laws;
mod linking;
mod load_laws;
mod making;
mod object;
mod objects;
mod prepare;
mod prepared;
mod preparing;
mod putting;
mod relocation_laws;
mod serving;
mod store;
mod sums;

pub use dispatch::command;
pub use gen_laws::{generated_lacks_room_alone, sources_become_modules};
pub use load_laws::linked_modules_load;
pub use relocation_laws::linked_modules_hold;
