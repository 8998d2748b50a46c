ghost use Rattle.std.specs.Prelude.{◌++◌};
ghost use Rattle.std.specs.List.{flat_map};
ghost use Rattle.c6x_ports.specs.Sink.{Puts};
ghost use Rattle.c6x_cli_show.specs.Lines.{segment_line};
ghost use Rattle.c6x_cli_show.specs.Shown.{headers_text, section_line_in};

use crate::lines::{put_section, put_segment, put_type};
use c6x_elf::{File, Section, Segment, section_name};
use c6x_ports::{Sink, SinkError};

/// Tells a file's type, its segments and its sections.
#[tactic(auto, using(c6x_spec::proofs::Puts::takes_then, c6x_spec::proofs::Puts::takes_then_front, c6x_spec::proofs::Puts::front_of_more), unfolding(crate::specs::Shown::headers_text))]
pub fn put_headers<O: Sink>(out: &mut O, file: &File) -> Result<(), SinkError>
    ensures { Puts (headers_text file.now) (O.seen out.old) (O.seen out.new) result }
{
    put_type(out, file.kind, file.entry)?;
    put_parts_of(out, file)?;
    Ok(())
}

/// Tells its segments and its sections.
#[tactic(auto, using(c6x_spec::proofs::Puts::takes_then, c6x_spec::proofs::Puts::takes_then_front, c6x_spec::proofs::Puts::front_of_more))]
fn put_parts_of<O: Sink>(out: &mut O, file: &File) -> Result<(), SinkError>
    ensures { Puts (flat_map segment_line file.now.segments ++ flat_map (section_line_in file.now) file.now.sections)
        (O.seen out.old) (O.seen out.new) result }
{
    put_segments(out, file.segments.as_slice())?;
    put_sections(out, file, file.sections.as_slice())?;
    Ok(())
}

/// Tells the segments.
fn put_segments<O: Sink>(out: &mut O, segments: &[Segment]) -> Result<(), SinkError>
    ensures { Puts (flat_map segment_line segments.now) (O.seen out.old) (O.seen out.new) result }
{
    for segment in segments {
        put_segment(out, segment)?;
    }
    Ok(())
}

/// Tells these of its sections.
fn put_sections<O: Sink>(out: &mut O, file: &File, sections: &[Section]) -> Result<(), SinkError>
    ensures { Puts (flat_map (section_line_in file.now) sections.now) (O.seen out.old) (O.seen out.new) result }
{
    for section in sections {
        put_named(out, file, section)?;
    }
    Ok(())
}

/// Tells one of them, with its name.
fn put_named<O: Sink>(out: &mut O, file: &File, section: &Section) -> Result<(), SinkError>
    ensures { Puts (section_line_in file.now section.now) (O.seen out.old) (O.seen out.new) result }
{
    put_section(out, section_name(file, section), section)
}
