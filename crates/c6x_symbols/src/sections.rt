ghost use Rattle.std.specs.Prelude.{◌≡◌};
ghost use Rattle.c6x_symbols.specs.Sections.{has_flag, is_allocated, is_allocated_at, is_near, is_text, zone_in, zone_of};

use crate::zone::Zone;
use c6x_elf::abi::{SHF_ALLOC, SHF_EXECINSTR, SHF_WRITE};
use c6x_elf::{File, Section, is_under, section_name};

/// Whether a bit of a section's flags is set.
#[tactic(auto, unfolding(crate::specs::Sections::has_flag))]
fn has_flag(section: &Section, flag: u32) -> bool
    ensures { result ≡ has_flag flag section.now }
{
    section.flags & flag != 0
}

/// Whether a section has memory.
pub fn is_allocated(section: &Section) -> bool
    ensures { result ≡ is_allocated section.now }
{
    has_flag(section, SHF_ALLOC)
}

/// Whether there is a section with this number, and it has memory.
#[tactic(auto, unfolding(crate::specs::Sections::is_allocated_at))]
pub fn is_allocated_at(sections: &[Section], number: u32) -> bool
    ensures { result ≡ is_allocated_at sections.now number }
{
    match sections.get(number as usize) {
        Some(section) => is_allocated(section),
        None => false,
    }
}

/// Whether sections of this name are in reach of the data page pointer: `.neardata`, `.rodata` and `.bss`, and all
/// that begin with one of these and a dot (SPRAB89).
#[tactic(auto, unfolding(crate::specs::Sections::is_near))]
fn is_near(name: &[u8]) -> bool
    ensures { result ≡ is_near name.now }
{
    is_under(name, b".neardata") || is_under(name, b".rodata") || is_under(name, b".bss")
}

/// Whether a section is part of the text, where it is told whether its name is a near one.
#[tactic(auto, unfolding(crate::specs::Sections::is_text))]
fn is_text(section: &Section, near: bool) -> bool
    ensures { result ≡ is_text near section.now }
{
    has_flag(section, SHF_EXECINSTR) || (!has_flag(section, SHF_WRITE) && !near)
}

/// The zone of a section with memory of a file.
#[tactic(auto, unfolding(crate::specs::Sections::zone_of))]
pub fn zone_of(file: &File, section: &Section) -> Zone
    ensures { result ≡ zone_of file.now.names file.now.sections section.now }
{
    zone_in(section, is_near(section_name(file, section)))
}

/// The zone of a section with memory, where it is told whether its name is a near one.
#[tactic(auto, unfolding(crate::specs::Sections::zone_in))]
fn zone_in(section: &Section, near: bool) -> Zone
    ensures { result ≡ zone_in near section.now }
{
    if is_text(section, near) {
        Zone::Text
    } else if near {
        Zone::Near
    } else {
        Zone::Far
    }
}
