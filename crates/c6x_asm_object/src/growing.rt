ghost use Rattle.std.specs.Prelude.{◌≡◌, ◌+◌, ◌-◌, ◌%◌, ◌^◌, ◌<◌, ◌≤◌, length, OnOk};
ghost use Rattle.c6x_asm_object.specs.Sections.{empty_section, is_zero, with_bytes, with_zeros, padding, with_align, with_entry, with_number, odd, with_parallel, with_instruction};

use crate::asm_section::AsmSection;
use crate::instr_word::InstrWord;
use crate::naming::first_align;
use crate::reloc_entry::RelocEntry;
use crate::section_kind::SectionKind;
use c6x_base::Row;
use std::alloc::{AllocError, Global};

/// A section without contents.
#[tactic(auto, unfolding(crate::specs::Sections::empty_section))]
pub fn empty_section(alloc: Global, at: u32, len: u32, kind: SectionKind) -> AsmSection
    ensures { result ≡ empty_section at len kind }
{
    AsmSection {
        at,
        len,
        kind,
        align: first_align(kind),
        size: 0,
        bytes: Row::new(alloc),
        entries: Row::new(alloc),
        instructions: Row::new(alloc),
        last: None,
    }
}

/// Whether a section has no bytes in the file.
pub fn is_zero(kind: SectionKind) -> bool
    ensures { result ≡ is_zero kind }
{
    matches!(kind, SectionKind::Zero)
}

#[tactic(auto, unfolding(crate::specs::Sections::with_bytes))]
fn put(section: &mut AsmSection, bytes: &[u8]) -> Result<(), AllocError>
    requires { section.old.size + length bytes.now < 2 ^ 32 }
    ensures { OnOk result (section.new ≡ with_bytes bytes.now section.old) }
{
    section.bytes.extend(bytes)?;
    section.size += bytes.len() as u32;
    Ok(())
}

/// `.space`.
#[tactic(auto, unfolding(crate::specs::Sections::with_zeros))]
pub fn put_zeros(section: &mut AsmSection, count: u32) -> Result<(), AllocError>
    requires { section.old.size + count < 2 ^ 32 }
    ensures { OnOk result (section.new ≡ with_zeros count section.old) }
{
    if !is_zero(section.kind) {
        section.bytes.extend_zeros(count)?;
    }
    section.size += count;
    Ok(())
}

/// The bytes up to the next multiple.
pub fn padding(size: u32, align: u32) -> u32
    requires { 1 ≤ align }
    ensures is { result ≡ padding size align }
    ensures small { result < align }
{
    (align - size % align) % align
}

/// `.align`.
#[tactic(auto, unfolding(crate::specs::Sections::with_align))]
pub fn put_align(section: &mut AsmSection, align: u32) -> Result<(), AllocError>
    requires some { 1 ≤ align }
    requires room { section.old.size + padding section.old.size align < 2 ^ 32 }
    ensures { OnOk result (section.new ≡ with_align align section.old) }
{
    let count = padding(section.size, align);
    section.align = section.align.max(align);
    put_zeros(section, count)
}

fn put_entry(section: &mut AsmSection, entry: Option<RelocEntry>) -> Result<(), AllocError>
    ensures { OnOk result (section.new ≡ with_entry entry section.old) }
{
    match entry {
        None => Ok(()),
        Some(entry) => section.entries.push(entry),
    }
}

/// A number of one, two or four bytes with its relocation.
#[tactic(auto, unfolding(crate::specs::Sections::with_number))]
pub fn put_number(
    section: &mut AsmSection,
    size: u32,
    bits: u32,
    entry: Option<RelocEntry>,
) -> Result<(), AllocError>
    requires few { size ≤ 4 }
    requires room { section.old.size + 4 < 2 ^ 32 }
    ensures { OnOk result (section.new ≡ with_number size bits entry section.old) }
{
    put_entry(section, entry)?;
    let bytes = bits.to_le_bytes();
    put(section, &bytes[..size as usize])
}

fn odd(b: u8) -> u8
    ensures { result ≡ odd b }
{
    if b % 2 == 0 { b + 1 } else { b }
}

#[tactic(auto, unfolding(crate::specs::Sections::with_parallel))]
fn set_parallel(section: &mut AsmSection, chained: bool)
    ensures is { section.new ≡ with_parallel chained section.old }
    ensures size { section.new.size ≡ section.old.size }
{
    if chained {
        let at = section.size.saturating_sub(4) as usize;
        let bytes = section.bytes.as_slice();
        let byte = if at < bytes.len() { bytes[at] } else { 0 };
        section.bytes.write(at, odd(byte));
    }
}

/// An instruction with its relocation.
#[tactic(auto, unfolding(crate::specs::Sections::with_instruction))]
pub fn put_instruction(
    section: &mut AsmSection,
    instruction: InstrWord,
    entry: Option<RelocEntry>,
) -> Result<(), AllocError>
    requires { section.old.size + 4 < 2 ^ 32 }
    ensures { OnOk result (section.new ≡ with_instruction instruction entry section.old) }
{
    set_parallel(section, instruction.chained);
    put_number(section, 4, instruction.word, entry)?;
    section.instructions.push(instruction)?;
    section.last = Some(section.size);
    Ok(())
}
