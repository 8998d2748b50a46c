ghost use Rattle.std.specs.Prelude.{◌≤◌, length};

use crate::sums::put_bytes;
use c6x_base::Name;
use c6x_elf::{ElfError, File, Segment, read_file};
use c6x_module::{DynSymbol, Field, Module, ModuleError, ModuleRule};
use c6x_modules::read_module;
use std::alloc::Global;
use std::io;
use std::io::Write;

/// Prints the module of a file's bytes, or the first broken rule.
pub fn put_module_answer<W: Write + Drop>(
    alloc: Global,
    out: &mut W,
    bytes: &[u8],
) -> io::Result<()> {
    match read_file(alloc, bytes) {
        Ok(file) => put_module_of(alloc, out, file),
        Err(ElfError::Rule { rule: _, place }) => writeln!(out, "E {place}"),
        Err(ElfError::NoMemory) => writeln!(out, "no memory"),
    }
}

/// Prints the module of a file, or the first broken rule with its number.
fn put_module_of<W: Write + Drop>(alloc: Global, out: &mut W, file: File) -> io::Result<()>
    requires { length file.segments ≤ 64 }
{
    let name = Name::from_bytes(alloc, b"m")?;
    match read_module(alloc, name, file) {
        Ok(module) => put_module(out, &module),
        Err(ModuleError::Rule { rule, number }) => {
            writeln!(out, "L{} {number}", number_of(rule))
        }
        Err(ModuleError::NoMemory) => writeln!(out, "no memory"),
    }
}

/// The number of a rule.
fn number_of(rule: ModuleRule) -> u32 {
    match rule {
        ModuleRule::NotDsbt => 1,
        ModuleRule::Segments => 2,
        ModuleRule::TextAlign => 3,
        ModuleRule::TableOutside => 4,
        ModuleRule::InitCode => 5,
        ModuleRule::RelForm => 6,
        ModuleRule::RelocKind => 7,
        ModuleRule::TextReloc => 8,
        ModuleRule::FieldOverlap => 9,
        ModuleRule::EntryOutside => 10,
        ModuleRule::DynamicOutside => 11,
    }
}

/// Prints the parts of a module.
fn put_module<W: Write + Drop>(out: &mut W, image: &Module) -> io::Result<()> {
    write!(out, "ok {} {}", image.kind, image.entry)?;
    write!(out, " {} {} {}", image.index, image.slots, image.table)?;
    put_segment(out, &image.text)?;
    put_segment(out, &image.memory)?;
    for symbol in image.symbols.as_slice() {
        put_symbol(out, symbol)?;
    }
    for field in image.fields.as_slice() {
        put_field(out, field)?;
    }
    for name in image.needed.as_slice() {
        write!(out, " needed")?;
        put_bytes(out, name.as_bytes())?;
    }
    writeln!(out)
}

/// Prints the values of a segment.
fn put_segment<W: Write + Drop>(out: &mut W, segment: &Segment) -> io::Result<()> {
    write!(out, " segment {} {}", segment.vaddr, segment.memsz)?;
    write!(out, " {} {}", segment.flags, segment.align)?;
    put_bytes(out, segment.bytes.as_bytes())
}

/// Prints the values of a symbol.
fn put_symbol<W: Write + Drop>(out: &mut W, symbol: &DynSymbol) -> io::Result<()> {
    write!(out, " symbol {} {}", symbol.value, symbol.info)?;
    write!(out, " {} {}", symbol.other, symbol.section)?;
    put_bytes(out, symbol.name.as_bytes())
}

/// Prints the values of a field.
fn put_field<W: Write + Drop>(out: &mut W, field: &Field) -> io::Result<()> {
    let kind = if field.slot_kind { "slot" } else { "word" };
    write!(out, " {kind} {}", field.place)?;
    write!(out, " {} {}", field.symbol, field.addend)
}
