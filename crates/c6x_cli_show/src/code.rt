ghost use Rattle.std.specs.Prelude.{◌≡◌, false};
ghost use Rattle.std.specs.List.{flat_map};
ghost use Rattle.c6x_ports.specs.Sink.{Puts};
ghost use Rattle.c6x_cli_show.specs.Code.{code_text, has_flag, section_code, segment_code};

use c6x_dis::list;
use c6x_elf::abi::{ET_REL, PF_X, PT_LOAD, SHF_EXECINSTR};
use c6x_elf::{File, Section, Segment};
use c6x_ports::{Sink, SinkError};

/// Lists the code of a file.
#[tactic(auto, unfolding(crate::specs::Code::code_text))]
pub fn put_code_of<O: Sink>(out: &mut O, file: &File) -> Result<(), SinkError>
    ensures { Puts (code_text false file.now) (O.seen out.old) (O.seen out.new) result }
{
    if file.kind == ET_REL {
        put_sections(out, file.sections.as_slice())
    } else {
        put_segments(out, file.segments.as_slice())
    }
}

/// Lists the code of the sections that have instructions.
fn put_sections<O: Sink>(out: &mut O, sections: &[Section]) -> Result<(), SinkError>
    ensures { Puts (flat_map (section_code false) sections.now) (O.seen out.old) (O.seen out.new) result }
{
    for section in sections {
        put_section(out, section)?;
    }
    Ok(())
}

/// Lists the code of a section, if it has instructions.
#[tactic(auto, unfolding(crate::specs::Code::section_code))]
fn put_section<O: Sink>(out: &mut O, section: &Section) -> Result<(), SinkError>
    ensures { Puts (section_code false section.now) (O.seen out.old) (O.seen out.new) result }
{
    if !has_flag(section.flags, SHF_EXECINSTR) {
        return Ok(());
    }
    list(section.bytes.as_bytes(), section.addr, out)
}

/// Lists the code of the segments that are loaded and may run.
fn put_segments<O: Sink>(out: &mut O, segments: &[Segment]) -> Result<(), SinkError>
    ensures { Puts (flat_map (segment_code false) segments.now) (O.seen out.old) (O.seen out.new) result }
{
    for segment in segments {
        put_segment(out, segment)?;
    }
    Ok(())
}

/// Lists the file bytes of a segment, if it is loaded and may run.
#[tactic(auto, unfolding(crate::specs::Code::segment_code))]
fn put_segment<O: Sink>(out: &mut O, segment: &Segment) -> Result<(), SinkError>
    ensures { Puts (segment_code false segment.now) (O.seen out.old) (O.seen out.new) result }
{
    if segment.kind != PT_LOAD || !has_flag(segment.flags, PF_X) {
        return Ok(());
    }
    list(segment.bytes.as_bytes(), segment.vaddr, out)
}

/// Whether a flag is set.
#[tactic(auto, unfolding(crate::specs::Code::has_flag))]
fn has_flag(flags: u32, flag: u32) -> bool
    ensures { result ≡ has_flag flag flags }
{
    flags & flag != 0
}
