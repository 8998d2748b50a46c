ghost use Rattle.std.specs.Prelude.{◌≡◌, map, IfOk};
ghost use Rattle.c6x_plan.specs.Answer.{Gives};
ghost use Rattle.c6x_plan.specs.RunLines.{module_line, number_behind, process_line, quantum_line, run_line, sizes_in};

use crate::limits::{LEAST_STACK, MOST_CYCLES, MOST_QUANTUM, MOST_STACK};
use crate::module_plan::ModulePlan;
use crate::number::number_in;
use crate::sizes::Sizes;
use crate::word::is_name;
use c6x_base::Name;
use std::alloc::{AllocError, Global};

/// What a process line says.
#[derive(Debug, Drop)]
pub struct ProcessLine {
    /// The process's name.
    pub name: Name,
    /// The name of its module.
    pub image: Name,
    /// Its numbers.
    pub sizes: Sizes,
}

/// What a line of a plan means.
#[derive(Debug, Drop)]
pub enum RunLine {
    /// The greatest number of cycles of one turn.
    Quantum(u32),
    /// A module.
    Module(ModulePlan),
    /// A process.
    Process(ProcessLine),
}

/// What a line of these words means, where it has a form.
#[tactic(auto, unfolding(crate::specs::RunLines::run_line))]
pub fn run_line(alloc: Global, words: &[&[u8]]) -> Result<Option<RunLine>, AllocError>
    ensures { IfOk result (λ line. line ≡ run_line (map (λ word. word.now) words.now)) }
{
    match words {
        [key, word] => Ok(quantum_line(key, word)),
        [key, name, file] => module_line(alloc, key, name, file),
        [key, name, image, numbers @ ..] => {
            process_line(alloc, key, name, image, sizes_in(numbers))
        }
        _ => Ok(None),
    }
}

/// What a line of two words means.
#[tactic(auto, unfolding(crate::specs::RunLines::quantum_line))]
fn quantum_line(key: &[u8], word: &[u8]) -> Option<RunLine>
    ensures { result ≡ quantum_line key.now word.now }
{
    if key == b"quantum".as_slice() {
        number_in(word, 1, MOST_QUANTUM).map(|quantum| RunLine::Quantum(quantum))
    } else {
        None
    }
}

/// What a line of three words means.
#[tactic(auto, unfolding(crate::specs::RunLines::module_line))]
fn module_line(
    alloc: Global,
    key: &[u8],
    name: &[u8],
    file: &[u8],
) -> Result<Option<RunLine>, AllocError>
    ensures { IfOk result (λ line. line ≡ module_line key.now name.now file.now) }
{
    if key == b"module".as_slice() && is_name(name) && is_name(file) {
        let name = Name::from_bytes(alloc, name)?;
        let file = Name::from_bytes(alloc, file)?;
        Ok(Some(RunLine::Module(ModulePlan { name, file })))
    } else {
        Ok(None)
    }
}

/// What a line of a process with these numbers means.
#[tactic(auto, unfolding(crate::specs::RunLines::process_line))]
fn process_line(
    alloc: Global,
    key: &[u8],
    name: &[u8],
    image: &[u8],
    sizes: Option<Sizes>,
) -> Result<Option<RunLine>, AllocError>
    ensures { IfOk result (λ line. line ≡ process_line key.now name.now image.now sizes) }
{
    match sizes {
        Some(sizes) if key == b"process".as_slice() && is_name(name) && is_name(image) => {
            let name = Name::from_bytes(alloc, name)?;
            let image = Name::from_bytes(alloc, image)?;
            Ok(Some(RunLine::Process(ProcessLine { name, image, sizes })))
        }
        _ => Ok(None),
    }
}

/// The numbers of a process.
#[tactic(auto, unfolding(crate::specs::RunLines::sizes_in))]
fn sizes_in(words: &[&[u8]]) -> Option<Sizes>
    ensures { result ≡ sizes_in (map (λ word. word.now) words.now) }
{
    let (limit, words) = number_behind(words, b"limit", 1, MOST_CYCLES)?;
    let (stack, words) = number_behind(words, b"stack", LEAST_STACK, MOST_STACK)?;
    let (arg, words) = number_behind(words, b"arg", 0, u32::MAX)?;
    if words.is_empty() && stack.is_multiple_of(8) {
        Some(Sizes { limit, stack, arg })
    } else {
        None
    }
}

/// A number within limits behind its key, and the words behind it.
#[tactic(auto, unfolding(crate::specs::RunLines::number_behind))]
fn number_behind<'a, 'b>(
    words: &'a [&'b [u8]],
    key: &[u8],
    least: u32,
    most: u32,
) -> Option<(u32, &'a [&'b [u8]])>
    ensures { Gives (λ part. (part.0, map (λ word. word.now) part.1.now)) result (number_behind key.now least most (map (λ word. word.now) words.now)) }
{
    match words {
        [word, digits, rest @ ..] if *word == key => {
            Some((number_in(digits, least, most)?, rest))
        }
        _ => None,
    }
}
