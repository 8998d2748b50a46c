//! The shift law as one bundle: where the module of a link stands in the memory, the relocation entries of the link hold
//! their values at its places, in every process of a loaded plan that uses it (SPRAB89, "DSBT Model").
//!
//! What the loader writes into a data range are fields that are set behind those of the link (SPRAB89, "Dynamic
//! Relocation"). There are laws alone here, beside the chain.
#![tactic(auto)]

mod laws;
mod moved;
mod patched;
mod relocated_plan;

pub use laws::{
    entries_hold, filled_fields_hold, imports_are_named, linked_fields_hold, words_hold,
};
pub use moved::{fields_hold, moved_words_hold, value_stays, words_are_sums};
pub use patched::loading_is_patching;
pub use relocated_plan::{members_stand, plans_are_relocated};
