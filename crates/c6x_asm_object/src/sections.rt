ghost use Rattle.std.specs.Prelude.{◌≡◌, ℕ, ◌+◌, ◌^◌, ◌<◌, ◌≤◌, List, vec_len, OnOk};
ghost use Rattle.c6x_asm_object.specs.Sections.{padding, with_zeros, with_align, with_number, with_instruction, section_at, changed};
ghost use Rattle.c6x_asm_object.specs.Named.{section_names};

use crate::asm_section::AsmSection;
use crate::growing::{put_align, put_instruction, put_number, put_zeros};
use crate::instr_word::InstrWord;
use crate::reloc_entry::RelocEntry;
use std::alloc::AllocError;

/// `.space` in the section with this number.
#[tactic(auto, using(std::proofs::lemmas::List::get_or_default, crate::proofs::Kept::names_with_zeros))]
pub fn add_zeros(sections: &mut Vec<AsmSection>, i: usize, count: u32) -> Result<(), AllocError>
    requires there { i < vec_len sections.old }
    requires room { (section_at sections.old.items i).size + count < 2 ^ 32 }
    ensures is { OnOk result (sections.new.items ≡ changed sections.old.items i (with_zeros count)) }
    ensures names { OnOk result ((text : List ℕ) → section_names text sections.new.items ≡ section_names text sections.old.items) }
    ensures len { OnOk result (vec_len sections.new ≡ vec_len sections.old) }
{
    put_zeros(&mut sections[i], count)
}

/// `.align` in the section with this number.
#[tactic(auto, using(std::proofs::lemmas::List::get_or_default, crate::proofs::Kept::names_with_align))]
pub fn add_align(sections: &mut Vec<AsmSection>, i: usize, align: u32) -> Result<(), AllocError>
    requires there { i < vec_len sections.old }
    requires some { 1 ≤ align }
    requires room { (section_at sections.old.items i).size + padding (section_at sections.old.items i).size align < 2 ^ 32 }
    ensures is { OnOk result (sections.new.items ≡ changed sections.old.items i (with_align align)) }
    ensures names { OnOk result ((text : List ℕ) → section_names text sections.new.items ≡ section_names text sections.old.items) }
    ensures len { OnOk result (vec_len sections.new ≡ vec_len sections.old) }
{
    put_align(&mut sections[i], align)
}

/// A number in the section with this number.
#[tactic(auto, using(std::proofs::lemmas::List::get_or_default, crate::proofs::Kept::names_with_number))]
pub fn add_number(
    sections: &mut Vec<AsmSection>,
    i: usize,
    size: u32,
    bits: u32,
    entry: Option<RelocEntry>,
) -> Result<(), AllocError>
    requires there { i < vec_len sections.old }
    requires few { size ≤ 4 }
    requires room { (section_at sections.old.items i).size + 4 < 2 ^ 32 }
    ensures is { OnOk result (sections.new.items ≡ changed sections.old.items i (with_number size bits entry)) }
    ensures names { OnOk result ((text : List ℕ) → section_names text sections.new.items ≡ section_names text sections.old.items) }
    ensures len { OnOk result (vec_len sections.new ≡ vec_len sections.old) }
{
    put_number(&mut sections[i], size, bits, entry)
}

/// An instruction in the section with this number.
#[tactic(auto, using(std::proofs::lemmas::List::get_or_default, crate::proofs::Kept::names_with_instruction))]
pub fn add_instruction(
    sections: &mut Vec<AsmSection>,
    i: usize,
    instruction: InstrWord,
    entry: Option<RelocEntry>,
) -> Result<(), AllocError>
    requires there { i < vec_len sections.old }
    requires room { (section_at sections.old.items i).size + 4 < 2 ^ 32 }
    ensures is { OnOk result (sections.new.items ≡ changed sections.old.items i (with_instruction instruction entry)) }
    ensures names { OnOk result ((text : List ℕ) → section_names text sections.new.items ≡ section_names text sections.old.items) }
    ensures len { OnOk result (vec_len sections.new ≡ vec_len sections.old) }
{
    put_instruction(&mut sections[i], instruction, entry)
}
