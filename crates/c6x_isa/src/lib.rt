//! Instructions of the C64x+ subset (SPRU732): their words, both ways, and what they do.
//!
//! [`decode`] and [`encode`] are the instruction table both ways, [`is_valid`] says what the table can spell, and
//! [`effects`] says what an instruction does with the values of the registers.
#![tactic(auto)]

mod conditions;
mod loads;
mod memory;
mod rows;
mod shifts;
mod values;

pub use c6x_encoding::{
    Access, Arith, Cond, CondReg, Effects, First, Instr, Job, MemOp, MoveKind, Op, Regs, UnitKind,
    Write, at_most_one_instruction, decode, decoded_iff_spelled, encode, exactly_one_word,
    is_valid,
};
pub use loads::write_of_load;
pub use rows::effects;
