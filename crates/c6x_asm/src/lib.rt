//! The assembler: the object file of an assembly text, or the first rule that the text breaks.
//!
//! What a line adds to the sections and symbols so far is a step. What the whole text means is said in the words of its
//! syntax, apart from the way in which that is gathered.
#![tactic(auto)]

mod asm_error;
mod assembling;
mod broken;
mod checking;
mod closing;
mod directives;
mod instructions;
mod labels;
mod lines;
mod reading;
mod relocations;
mod running;
mod sections;
mod symbols;

pub use asm_error::AsmError;
pub use assembling::assemble;
pub use broken::Broken;
pub use c6x_asm_lines::AsmRule;
