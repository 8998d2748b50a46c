//! Worked calls of the libraries, with values that were worked out by hand, of what no row on `command` shows.
//!
//! The contracts say what every call gives. These tests show that calls with ample memory give it, and what values come out.
#![tactic(auto)]

#[cfg(test)]
mod areas;
#[cfg(test)]
mod boards;
#[cfg(test)]
mod entries;
#[cfg(test)]
mod policies;
#[cfg(test)]
mod relocations;
#[cfg(test)]
mod rows;
#[cfg(test)]
mod shelves;
#[cfg(test)]
mod sinks;
#[cfg(test)]
mod tokens;
