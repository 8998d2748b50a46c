ghost use Rattle.std.specs.Prelude.{◌≡◌, ◌<◌, ◌≤◌, ◌^◌, false, length, Ok, IfOk};
ghost use Rattle.c6x_asm.specs.Objects.{assembled};
ghost use Rattle.c6x_elf.specs.Form.{IsTidy};
ghost use Rattle.c6x_elf.specs.Writing.{written};
ghost use Rattle.c6x_cli.specs.Objects.{assembly_words, object_steps, or_broken};
ghost use Rattle.c6x_cli_steps.specs.Steps.{Decides, Prepares};

use c6x_asm::{AsmError, AsmRule, assemble};
use c6x_base::{Bytes, Line, Name};
use c6x_cli_steps::{PrepareError, fetch_whole, label, refuse};
use c6x_elf::{File, write_file};
use c6x_ports::Shelf;
use std::alloc::Global;

/// The bytes of the object file of the text with this name.
pub fn prepare_object<S: Shelf>(
    alloc: Global,
    shelf: &mut S,
    name: &Name,
) -> Result<Bytes, PrepareError>
    ensures { Prepares (λ bytes. bytes) (λ told. object_steps told name.now) (S.seen shelf.old) (S.seen shelf.new) result }
{
    let text = fetch_whole(alloc, shelf, name)?;
    let object = object_of(alloc, name, &text)?;
    written_object(alloc, &object)
}

/// The object of a text, or the first rule that the text breaks.
pub fn object_of(alloc: Global, name: &Name, text: &[u8]) -> Result<File, PrepareError>
    requires { length text.now < 2 ^ 32 }
    ensures decides { Decides (λ object. object) (or_broken name.now (assembled text.now)) result }
    ensures tidy { IfOk result (IsTidy false) }
{
    match assemble(alloc, text) {
        Ok(object) => Ok(object),
        Err(AsmError::Rule { rule, line }) => {
            Err(refuse(alloc, assembly_label(rule), name, line))
        }
        Err(AsmError::NoMemory) => Err(PrepareError::Memory),
    }
}

/// The bytes of a file.
pub fn written_object(alloc: Global, object: &File) -> Result<Bytes, PrepareError>
    requires { IsTidy false object.now }
    ensures { Decides (λ bytes. bytes) (Ok (written false object.now)) result }
{
    match write_file(alloc, object) {
        Ok(bytes) => Ok(bytes),
        Err(_) => Err(PrepareError::Memory),
    }
}

/// The code and the word of a rule of assembly texts.
fn assembly_label(rule: AsmRule) -> Line
    ensures { result ≡ assembly_words rule }
{
    label(assembly_text(rule))
}

/// The same as bytes.
#[tactic(auto, unfolding(crate::specs::Objects::assembly_words))]
fn assembly_text(rule: AsmRule) -> &'static [u8]
    ensures words { result.now ≡ assembly_words rule }
    ensures short { length result.now ≤ 256 }
{
    match rule {
        AsmRule::BadByte => b"A1 BadByte",
        AsmRule::Syntax => b"A2 Syntax",
        AsmRule::UnknownWord => b"A3 UnknownWord",
        AsmRule::Operand => b"A4 Operand",
        AsmRule::Range => b"A5 Range",
        AsmRule::Packet => b"A6 Packet",
        AsmRule::DuplicateLabel => b"A7 DuplicateLabel",
        AsmRule::NoSection => b"A8 NoSection",
        AsmRule::Large => b"A9 Large",
    }
}
