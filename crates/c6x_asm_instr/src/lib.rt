//! The instructions and the directives of assembly text: what the statement of a line stands for.
#![tactic(auto)]

mod branches;
mod directive;
mod directives;
mod fields;
mod instructions;
mod keyword;
mod kinds;
mod memory;
mod names;
mod operations;
mod symbol_attribute;
mod units;

pub use directive::Directive;
pub use directives::directive_of;
pub use instructions::instruction_of;
pub use keyword::Keyword;
pub use kinds::kinds_fault;
pub use memory::{is_store, size_of};
pub use names::keyword_of;
pub use symbol_attribute::SymbolAttribute;
pub use units::{is_swapped, other_side};
