ghost use Rattle.std.specs.Prelude.{◌≡◌, ◌^◌, ◌++◌, ◌<◌, All, IfOk, OnOk, length};
ghost use Rattle.c6x_elf.specs.Parts.{has_bytes};
ghost use Rattle.c6x_symbols.specs.Objects.{HasFewSections};
ghost use Rattle.c6x_symbols.specs.Parts.{file_parts, part_at, part_of, parts_of};

use crate::part::Part;
use crate::sections::{is_allocated, zone_of};
use c6x_elf::abi::{SHT_NOBITS, SHT_NULL};
use c6x_elf::{File, Section};
use std::alloc::{AllocError, Global};

/// The sections with memory of all objects, in object and section order.
#[tactic(auto, unfolding(crate::specs::Parts::parts_of), using(crate::proofs::Numbered::numbered_alone))]
pub fn parts(alloc: Global, objects: &[File]) -> Result<Vec<Part>, AllocError>
    requires few { length objects.now < 2 ^ 32 }
    requires sections { All HasFewSections objects.now }
    ensures { IfOk result (λ parts. parts.items ≡ parts_of objects.now) }
{
    let mut parts = Vec::new(alloc);
    for (number, object) in objects.iter().enumerate() {
        add_file(&mut parts, number as u32, object)?;
    }
    Ok(parts)
}

/// Adds the sections with memory of an object.
#[tactic(auto, unfolding(crate::specs::Parts::file_parts), using(crate::proofs::Numbered::numbered_more))]
fn add_file(parts: &mut Vec<Part>, object: u32, file: &File) -> Result<(), AllocError>
    requires few { HasFewSections file.now }
    ensures { OnOk result (parts.new.items ≡ parts.old.items ++ file_parts (object, file.now)) }
{
    for (number, section) in file.sections.as_slice().iter().enumerate() {
        add_section(parts, object, file, number as u32, section)?;
    }
    Ok(())
}

/// Adds a section if it has memory.
#[tactic(auto, unfolding(crate::specs::Parts::part_at))]
fn add_section(
    parts: &mut Vec<Part>,
    object: u32,
    file: &File,
    number: u32,
    section: &Section,
) -> Result<(), AllocError>
    ensures { OnOk result (parts.new.items ≡ parts.old.items ++ part_at object file.now (number, section.now)) }
{
    if is_allocated(section) {
        parts.push(part_of(object, file, number, section))?;
    }
    Ok(())
}

/// The part that a section is.
#[tactic(auto, unfolding(crate::specs::Parts::part_of))]
fn part_of(object: u32, file: &File, number: u32, section: &Section) -> Part
    ensures { result ≡ part_of object file.now number section.now }
{
    Part {
        object,
        section: number,
        zone: zone_of(file, section),
        filled: has_bytes(section.kind),
        size: section.size,
        align: section.align,
    }
}

/// Whether a section of this type has bytes in the file.
#[tactic(auto, unfolding(c6x_elf::specs::Parts::has_bytes))]
fn has_bytes(kind: u32) -> bool
    ensures { result ≡ has_bytes kind }
{
    kind != SHT_NULL && kind != SHT_NOBITS
}
