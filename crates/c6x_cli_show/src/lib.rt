//! `dis` and `show`: what they tell of a file, put line by line. No line takes memory.
#![tactic(auto)]

mod code;
mod entries;
mod headers;
mod lines;
mod putting;
mod tables;

pub use putting::{put_code, put_show};
