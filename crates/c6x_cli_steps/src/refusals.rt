ghost use Rattle.std.specs.Prelude.{◌≡◌, ◌≤◌, length};
ghost use Rattle.c6x_cli_steps.specs.Lines.{elf_words};
ghost use Rattle.c6x_cli_steps.specs.Steps.{Refuses};

use crate::cause::{Cause, Refusal};
use crate::prepare_error::PrepareError;
use c6x_base::{Line, Name};
use c6x_elf::ElfRule;
use std::alloc::Global;

/// The stop at a rule, named by its code and word, that the subject breaks.
pub fn refuse(alloc: Global, rule: Line, subject: &Name, number: u32) -> PrepareError
    ensures { Refuses result (record { rule = rule; subject = subject.now; number = number }) }
{
    match subject.copy(alloc) {
        Ok(subject) => PrepareError::Because(Cause::Refused(Refusal {
            rule,
            subject,
            number,
        })),
        Err(_) => PrepareError::Memory,
    }
}

/// A rule's code and word as a line has them.
pub fn label(text: &[u8]) -> Line
    requires { length text.now ≤ 256 }
    ensures { result ≡ text.now }
{
    let mut line = Line::new();
    line.push(text);
    line
}

/// The code and the word of a rule of ELF files.
pub fn elf_label(rule: ElfRule) -> Line
    ensures { result ≡ elf_words rule }
{
    label(elf_text(rule))
}

/// The same as bytes.
#[tactic(auto, unfolding(crate::specs::Lines::elf_words))]
fn elf_text(rule: ElfRule) -> &'static [u8]
    ensures words { result.now ≡ elf_words rule }
    ensures short { length result.now ≤ 256 }
{
    match rule {
        ElfRule::Short => b"E1 Short",
        ElfRule::Magic => b"E2 Magic",
        ElfRule::Class => b"E3 Class",
        ElfRule::Data => b"E4 Data",
        ElfRule::Version => b"E5 Version",
        ElfRule::Machine => b"E6 Machine",
        ElfRule::FileType => b"E7 FileType",
        ElfRule::EntrySize => b"E8 EntrySize",
        ElfRule::Index => b"E9 Index",
        ElfRule::NoNul => b"E10 NoNul",
        ElfRule::Large => b"E11 Large",
    }
}
