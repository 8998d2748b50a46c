//! The lines of an assembly text, and the words and operands in them, read by their grammar alone.
//!
//! `specs/` says which line lexemes spell, apart from how they are read; `read_line` is held to that alone.
#![tactic(auto)]

mod address;
mod address_places;
mod addresses;
mod base_modifier;
mod bytes;
mod combine;
mod data_path;
mod heads;
mod lexeme;
mod line;
mod lines;
mod mnemonic;
mod mode;
mod named;
mod names;
mod number;
mod numbers;
mod offset;
mod operand;
mod operand_values;
mod operands;
mod parts;
mod place;
mod primary;
mod punctuator;
mod range;
mod reading;
mod register;
mod relocatable;
mod relocation;
mod remaining;
mod rule;
mod statement_head;
mod unit;
mod value;
mod word;
mod words;

pub use address::Address;
pub use address_places::place_of;
pub use base_modifier::BaseModifier;
pub use bytes::{bytes_at, same_bytes};
pub use combine::{both, lower, lowest};
pub use data_path::DataPath;
pub use lexeme::Lexeme;
pub use line::{Line, Statement};
pub use lines::line_of;
pub use mnemonic::Mnemonic;
pub use mode::Mode;
pub use named::{Names, row_named};
pub use names::{kind_of, mnemonic_name, mnemonic_of, unit_of};
pub use number::Number;
pub use numbers::number_in;
pub use offset::Offset;
pub use operand::Operand;
pub use operand_values::{
    constant_operand, field_operand, register_on, register_operand, same_side,
};
pub use place::Place;
pub use primary::Primary;
pub use punctuator::Punctuator;
pub use range::Range;
pub use reading::read_line;
pub use register::Register;
pub use relocatable::{Field, RelocatableOp};
pub use relocation::Relocation;
pub use rule::AsmRule;
pub use statement_head::StatementHead;
pub use unit::Unit;
pub use value::Value;
pub use word::{Word, WordClass};
pub use words::lexeme_of;
