ghost use Rattle.std.specs.Prelude.{◌≡◌, ◌++◌, codes, decimal};
ghost use Rattle.c6x_spec.specs.Printed.{hex_word as word_text};
ghost use Rattle.c6x_ports.specs.Sink.{Puts};
ghost use Rattle.c6x_cli_show.specs.Lines.{rela_line, section_line, segment_line, symbol_line, tag_line, type_line};

use c6x_base::{Line, hex_word};
use c6x_elf::{Dyn, Rela, Section, Segment, Symbol};
use c6x_ports::{Sink, SinkError, put_parts};
use itoa::Buffer;

/// Tells the type of a file and its entry.
pub fn put_type<O: Sink>(out: &mut O, kind: u16, entry: u32) -> Result<(), SinkError>
    ensures { Puts (type_line kind entry) (O.seen out.old) (O.seen out.new) result }
{
    let line = type_line(kind, entry);
    out.put(line.as_bytes())
}

/// The line of a file's type and its entry.
#[tactic(auto, unfolding(crate::specs::Lines::type_line))]
fn type_line(kind: u16, entry: u32) -> Line
    ensures { result ≡ type_line kind entry }
{
    let mut number = Buffer::new();
    let mut line = Line::new();
    line.push(b"type ");
    line.push(number.format(kind).as_bytes());
    line.push(b" entry ");
    line.push(&hex_word(entry));
    line.push(b"\n");
    line
}

/// Tells a segment.
pub fn put_segment<O: Sink>(out: &mut O, segment: &Segment) -> Result<(), SinkError>
    ensures { Puts (segment_line segment.now) (O.seen out.old) (O.seen out.new) result }
{
    let line = segment_line(segment);
    out.put(line.as_bytes())
}

/// The line of a segment.
#[tactic(auto, unfolding(crate::specs::Lines::segment_line))]
fn segment_line(segment: &Segment) -> Line
    ensures { result ≡ segment_line segment.now }
{
    let mut kind = Buffer::new();
    let mut filesz = Buffer::new();
    let mut memsz = Buffer::new();
    let mut flags = Buffer::new();
    let mut line = Line::new();
    line.push(b"segment ");
    line.push(kind.format(segment.kind).as_bytes());
    line.push(b" ");
    line.push(&hex_word(segment.vaddr));
    line.push(b" ");
    line.push(filesz.format(segment.bytes.as_bytes().len()).as_bytes());
    line.push(b" ");
    line.push(memsz.format(segment.memsz).as_bytes());
    line.push(b" ");
    line.push(flags.format(segment.flags).as_bytes());
    line.push(b"\n");
    line
}

/// Tells a section of this name.
#[tactic(auto, unfolding(crate::specs::Lines::section_line))]
pub fn put_section<O: Sink>(out: &mut O, name: &[u8], section: &Section) -> Result<(), SinkError>
    ensures { Puts (section_line name.now section.now) (O.seen out.old) (O.seen out.new) result }
{
    let end = section_end(section);
    put_parts(out, &[b"section ", name, end.as_bytes()])
}

/// What stands behind a section's name.
fn section_end(section: &Section) -> Line
    ensures { result ≡ codes " " ++ decimal section.now.kind ++ codes " " ++ decimal section.now.flags
        ++ codes " " ++ decimal section.now.size ++ codes "\n" }
{
    let mut kind = Buffer::new();
    let mut flags = Buffer::new();
    let mut size = Buffer::new();
    let mut line = Line::new();
    line.push(b" ");
    line.push(kind.format(section.kind).as_bytes());
    line.push(b" ");
    line.push(flags.format(section.flags).as_bytes());
    line.push(b" ");
    line.push(size.format(section.size).as_bytes());
    line.push(b"\n");
    line
}

/// Tells a symbol of this name.
#[tactic(auto, unfolding(crate::specs::Lines::symbol_line))]
pub fn put_symbol<O: Sink>(out: &mut O, name: &[u8], symbol: Symbol) -> Result<(), SinkError>
    ensures { Puts (symbol_line name.now symbol) (O.seen out.old) (O.seen out.new) result }
{
    let end = symbol_end(symbol);
    put_parts(out, &[b"symbol ", name, end.as_bytes()])
}

/// What stands behind a symbol's name.
fn symbol_end(symbol: Symbol) -> Line
    ensures { result ≡ codes " " ++ word_text symbol.value ++ codes " " ++ decimal symbol.info
        ++ codes " " ++ decimal symbol.section ++ codes "\n" }
{
    let mut info = Buffer::new();
    let mut section = Buffer::new();
    let mut line = Line::new();
    line.push(b" ");
    line.push(&hex_word(symbol.value));
    line.push(b" ");
    line.push(info.format(symbol.info).as_bytes());
    line.push(b" ");
    line.push(section.format(symbol.section).as_bytes());
    line.push(b"\n");
    line
}

/// Tells a relocation entry.
pub fn put_rela<O: Sink>(out: &mut O, rela: Rela) -> Result<(), SinkError>
    ensures { Puts (rela_line rela) (O.seen out.old) (O.seen out.new) result }
{
    let line = rela_line(rela);
    out.put(line.as_bytes())
}

/// The line of a relocation entry.
#[tactic(auto, unfolding(crate::specs::Lines::rela_line))]
fn rela_line(rela: Rela) -> Line
    ensures { result ≡ rela_line rela }
{
    let mut offset = Buffer::new();
    let mut kind = Buffer::new();
    let mut symbol = Buffer::new();
    let mut addend = Buffer::new();
    let mut line = Line::new();
    line.push(b"reloc ");
    line.push(offset.format(rela.offset).as_bytes());
    line.push(b" ");
    line.push(kind.format(rela.kind()).as_bytes());
    line.push(b" ");
    line.push(symbol.format(rela.symbol()).as_bytes());
    line.push(b" ");
    line.push(addend.format(rela.addend).as_bytes());
    line.push(b"\n");
    line
}

/// Tells a dynamic entry.
pub fn put_tag<O: Sink>(out: &mut O, entry: Dyn) -> Result<(), SinkError>
    ensures { Puts (tag_line entry) (O.seen out.old) (O.seen out.new) result }
{
    let line = tag_line(entry);
    out.put(line.as_bytes())
}

/// The line of a dynamic entry.
#[tactic(auto, unfolding(crate::specs::Lines::tag_line))]
fn tag_line(entry: Dyn) -> Line
    ensures { result ≡ tag_line entry }
{
    let mut line = Line::new();
    line.push(b"tag ");
    line.push(&hex_word(entry.tag));
    line.push(b" ");
    line.push(&hex_word(entry.value));
    line.push(b"\n");
    line
}
