ghost use Rattle.std.specs.Prelude.{◌≡◌, ◌++◌, false};
ghost use Rattle.std.specs.List.{flat_map};
ghost use Rattle.std.specs.Option.{option_copied};
ghost use Rattle.c6x_elf.specs.Parts.{is_symbol_table};
ghost use Rattle.c6x_elf.specs.TableEntries.{rela_entries, symbol_entries};
ghost use Rattle.c6x_module.specs.Entries.{dynamic_in, entries_of};
ghost use Rattle.c6x_ports.specs.Sink.{Puts};
ghost use Rattle.c6x_cli_show.specs.Lines.{rela_line, symbol_line_in, tag_line};
ghost use Rattle.c6x_cli_show.specs.Shown.{table_relas, table_symbols, tables_text, tag_lines};

use crate::entries::{entry_in, rela_in, symbol_in};
use crate::lines::{put_rela, put_symbol, put_tag};
use c6x_elf::abi::{DT_NULL, PT_DYNAMIC, SHT_DYNSYM, SHT_RELA, SHT_SYMTAB};
use c6x_elf::{File, Section, Segment, Symbol, name_at, section_bytes};
use c6x_ports::{Sink, SinkError};

/// Tells the entries of a file's tables: symbols, relocation entries and dynamic entries.
#[tactic(auto, using(c6x_spec::proofs::Puts::takes_then, c6x_spec::proofs::Puts::takes_then_front, c6x_spec::proofs::Puts::front_of_more), unfolding(crate::specs::Shown::tables_text))]
pub fn put_tables<O: Sink>(out: &mut O, file: &File) -> Result<(), SinkError>
    ensures { Puts (tables_text false file.now) (O.seen out.old) (O.seen out.new) result }
{
    put_symbol_tables(out, file.sections.as_slice())?;
    put_linking(out, file)?;
    Ok(())
}

/// Tells its relocation entries and its dynamic entries.
#[tactic(auto, using(c6x_spec::proofs::Puts::takes_then, c6x_spec::proofs::Puts::takes_then_front, c6x_spec::proofs::Puts::front_of_more))]
fn put_linking<O: Sink>(out: &mut O, file: &File) -> Result<(), SinkError>
    ensures { Puts (flat_map (table_relas false) file.now.sections ++ tag_lines false (dynamic_in file.now.segments))
        (O.seen out.old) (O.seen out.new) result }
{
    put_relocation_tables(out, file.sections.as_slice())?;
    put_dynamics(out, file.segments.as_slice())?;
    Ok(())
}

/// Tells the symbols of all symbol tables.
fn put_symbol_tables<O: Sink>(out: &mut O, sections: &[Section]) -> Result<(), SinkError>
    ensures { Puts (flat_map (table_symbols false sections.now) sections.now) (O.seen out.old) (O.seen out.new) result }
{
    for table in sections {
        put_table_symbols(out, sections, table)?;
    }
    Ok(())
}

/// Tells the symbols of a section, if it is a symbol table.
#[tactic(auto, unfolding(crate::specs::Shown::table_symbols))]
fn put_table_symbols<O: Sink>(
    out: &mut O,
    sections: &[Section],
    table: &Section,
) -> Result<(), SinkError>
    ensures { Puts (table_symbols false sections.now table.now) (O.seen out.old) (O.seen out.new) result }
{
    if !is_symbol_table(table.kind) {
        return Ok(());
    }
    let strings = section_bytes(sections, table.link);
    put_symbols(out, strings, table.bytes.as_bytes())
}

/// Whether a section of this type is a symbol table.
#[tactic(auto, unfolding(c6x_elf::specs::Parts::is_symbol_table))]
fn is_symbol_table(kind: u32) -> bool
    ensures { result ≡ is_symbol_table kind }
{
    kind == SHT_SYMTAB || kind == SHT_DYNSYM
}

/// Tells the symbols of a table whose names stand in these strings.
fn put_symbols<O: Sink>(out: &mut O, strings: &[u8], table: &[u8]) -> Result<(), SinkError>
    ensures { Puts (flat_map (symbol_line_in strings.now) (symbol_entries false table.now))
        (O.seen out.old) (O.seen out.new) result }
{
    for number in 0..table.len() / 16 {
        put_named(out, strings, symbol_in(table, number))?;
    }
    Ok(())
}

/// Tells one of them.
fn put_named<O: Sink>(out: &mut O, strings: &[u8], symbol: Symbol) -> Result<(), SinkError>
    ensures { Puts (symbol_line_in strings.now symbol) (O.seen out.old) (O.seen out.new) result }
{
    match name_at(strings, symbol.name) {
        Some(name) => put_symbol(out, name, symbol),
        None => put_symbol(out, b"", symbol),
    }
}

/// Tells the entries of all relocation tables.
fn put_relocation_tables<O: Sink>(out: &mut O, sections: &[Section]) -> Result<(), SinkError>
    ensures { Puts (flat_map (table_relas false) sections.now) (O.seen out.old) (O.seen out.new) result }
{
    for table in sections {
        put_table_relas(out, table)?;
    }
    Ok(())
}

/// Tells the entries of a section, if it is a relocation table.
#[tactic(auto, unfolding(crate::specs::Shown::table_relas, c6x_elf::specs::Parts::is_relocation_table))]
fn put_table_relas<O: Sink>(out: &mut O, table: &Section) -> Result<(), SinkError>
    ensures { Puts (table_relas false table.now) (O.seen out.old) (O.seen out.new) result }
{
    if table.kind != SHT_RELA {
        return Ok(());
    }
    put_relas(out, table.bytes.as_bytes())
}

/// Tells the entries of a relocation table.
fn put_relas<O: Sink>(out: &mut O, table: &[u8]) -> Result<(), SinkError>
    ensures { Puts (flat_map rela_line (rela_entries false table.now)) (O.seen out.old) (O.seen out.new) result }
{
    for number in 0..table.len() / 12 {
        put_rela(out, rela_in(table, number))?;
    }
    Ok(())
}

/// Tells the dynamic entries of the first segment of type DYNAMIC.
fn put_dynamics<O: Sink>(out: &mut O, segments: &[Segment]) -> Result<(), SinkError>
    ensures { Puts (tag_lines false (dynamic_in segments.now)) (O.seen out.old) (O.seen out.new) result }
{
    match dynamic_in(segments) {
        Some(table) => put_tags(out, table),
        None => Ok(()),
    }
}

/// The bytes of the first segment of type DYNAMIC.
#[tactic(auto, using(c6x_module::proofs::EntryWalks::dynamic_more))]
fn dynamic_in(segments: &[Segment]) -> Option<&[u8]>
    ensures { option_copied result ≡ dynamic_in segments.now }
{
    for segment in segments {
        if segment.kind == PT_DYNAMIC {
            return Some(segment.bytes.as_bytes());
        }
    }
    None
}

/// Tells the dynamic entries in front of the first NULL.
fn put_tags<O: Sink>(out: &mut O, table: &[u8]) -> Result<(), SinkError>
    ensures { Puts (flat_map tag_line (entries_of false table.now)) (O.seen out.old) (O.seen out.new) result }
{
    for number in 0..table.len() / 8 {
        let entry = entry_in(table, number);
        if entry.tag == DT_NULL {
            return Ok(());
        }
        put_tag(out, entry)?;
    }
    Ok(())
}
