//! What the words of the command ask for (this project's own).
#![tactic(auto)]

mod argument;
mod asking;
mod grammar;
mod reading;
mod request;

pub use reading::parse_words;
pub use request::Request;
