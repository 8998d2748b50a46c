//! The instructions of the C64x+ subset as values, and their words, both ways: which instruction a word spells, and
//! which word spells an instruction.
//!
//! The definitions of this crate say which word spells an instruction, from the table of the instruction set, and what
//! the instruction does. The crates above meet them.
#![tactic(auto)]

mod access;
mod arith;
mod codes;
mod cond;
mod cond_reg;
mod decoding;
mod effect;
mod encoding;
mod fields;
mod first;
mod form;
mod groups;
mod head;
mod instr;
mod job;
mod laws;
mod mem_op;
mod move_kind;
mod op;
mod operands;
mod regs;
mod rests;
mod unit_kind;
mod words;
mod write;

pub use access::Access;
pub use arith::Arith;
pub use cond::Cond;
pub use cond_reg::CondReg;
pub use decoding::decode;
pub use effect::Effects;
pub use encoding::{encode, is_valid};
pub use first::First;
pub use instr::Instr;
pub use job::Job;
pub use laws::{at_most_one_instruction, decoded_iff_spelled, exactly_one_word};
pub use mem_op::MemOp;
pub use move_kind::MoveKind;
pub use op::Op;
pub use regs::Regs;
pub use unit_kind::UnitKind;
pub use write::Write;
