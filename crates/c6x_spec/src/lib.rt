//! The words that several crates use in their contracts: fields of words, numbers in bytes, memory, told
//! files and counts, what a sink took, and printed numbers.
//!
//! There is no function here. `specs/` has the definitions, and `proofs/` the lemmas about them.
#![tactic(auto)]
