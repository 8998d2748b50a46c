ghost use Rattle.std.specs.Prelude.{false};
ghost use Rattle.c6x_elf.specs.Form.{IsTidy};

use crate::sums::put_bytes;
use c6x_elf::{ElfError, ElfRule, File, Section, Segment, is_tidy, read_file, write_file};
use std::alloc::Global;
use std::io;
use std::io::Write;

/// Prints what the bytes of a file stand for, or the first broken rule with its place.
pub fn put_file_answer<W: Write + Drop>(
    alloc: Global,
    out: &mut W,
    bytes: &[u8],
) -> io::Result<()> {
    match read_file(alloc, bytes) {
        Ok(file) => {
            put_file(out, &file)?;
            if is_tidy(alloc, &file)? {
                put_written(alloc, out, &file)?;
            }
            writeln!(out)
        }
        Err(ElfError::Rule { rule, place }) => writeln!(out, "E{} {place}", number_of(rule)),
        Err(ElfError::NoMemory) => writeln!(out, "no memory"),
    }
}

/// The number of a rule.
fn number_of(rule: ElfRule) -> u32 {
    match rule {
        ElfRule::Short => 1,
        ElfRule::Magic => 2,
        ElfRule::Class => 3,
        ElfRule::Data => 4,
        ElfRule::Version => 5,
        ElfRule::Machine => 6,
        ElfRule::FileType => 7,
        ElfRule::EntrySize => 8,
        ElfRule::Index => 9,
        ElfRule::NoNul => 10,
        ElfRule::Large => 11,
    }
}

/// Prints the values of a file.
fn put_file<W: Write + Drop>(out: &mut W, file: &File) -> io::Result<()> {
    write!(
        out,
        "ok {} {} {} {}",
        file.kind, file.entry, file.flags, file.names
    )?;
    for segment in file.segments.as_slice() {
        put_segment(out, segment)?;
    }
    for section in file.sections.as_slice() {
        put_section(out, section)?;
    }
    Ok(())
}

/// Prints the values of a segment.
fn put_segment<W: Write + Drop>(out: &mut W, segment: &Segment) -> io::Result<()> {
    write!(
        out,
        " segment {} {} {}",
        segment.kind, segment.vaddr, segment.memsz
    )?;
    write!(out, " {} {}", segment.flags, segment.align)?;
    put_bytes(out, segment.bytes.as_bytes())
}

/// Prints the values of a section.
fn put_section<W: Write + Drop>(out: &mut W, section: &Section) -> io::Result<()> {
    write!(
        out,
        " section {} {} {}",
        section.name, section.kind, section.flags
    )?;
    write!(out, " {} {} {}", section.addr, section.size, section.link)?;
    write!(
        out,
        " {} {} {}",
        section.info, section.align, section.entsize
    )?;
    put_bytes(out, section.bytes.as_bytes())
}

/// Prints the written form of a tidy file.
fn put_written<W: Write + Drop>(alloc: Global, out: &mut W, file: &File) -> io::Result<()>
    requires { IsTidy false file.now }
{
    match write_file(alloc, file) {
        Ok(bytes) => {
            write!(out, " written")?;
            put_bytes(out, bytes.as_bytes())
        }
        Err(_) => write!(out, " no memory"),
    }
}
