//! What calls answer, for the scripts in `checks/` that compare the answers with those of a reference model, and what
//! `command` gives over devices in memory, for the worked rows in `stdin` and `stdout` beside this folder.
//!
//! Lines that ask, with numbers and bytes in hexadecimal:
//! `word WORD AT SEED`: the word again, its instruction, what it does at the address AT with registers drawn from the seed,
//! and what a load writes then of the seed's low bytes; `show WORD`: the line of its instruction; `split` and one to eight
//! words: the length of their packet or the rule that they break; `count NUMBER SEED`: how many of so many drawn words
//! spell an instruction; `elf BYTES`: what stands in a file's bytes, or the first broken rule and its place; `module BYTES`:
//! the module that stands there, or the first broken rule and its number. `sources NUMBER`, in decimal: what it generates.
//!
//! Lines of the devices, with counts in decimal:
//! `devices LEN`: new ones with a board of LEN bytes, each 0xAA, no file, and a policy of each named kind; `call=N,..` and
//! `put=N,..` behind it: these calls of the shelf and puts of the output fail; `board LEN`: a new board; `policies WORD..`:
//! those that are handed in, of `round`, `last`, `drawn`, `order` (each process to its end) and lists `P:S,..` of answers;
//! `asked N`: behind each command the policies are asked, with one (1) or four (4) processes ready; `put NAME`: the content
//! becomes a file; `take NAME`: a file's bytes become the content.
//!
//! Lines of the content, which is empty behind `devices` and `put`:
//! `| TEXT`: this line; `+ TEXT`: this text; `hex BYTES`; `words WORD..`, lowest byte first; `times COUNT TEXT`: so many such
//! lines; `number COUNT TEXT`: the text for each number below COUNT, with it in four digits for `%` and the end of a line
//! for `&`; `many COUNT BYTE`; `swap OLD.. : NEW..`: the words OLD, where they first stand, become NEW; `set PLACE BYTES`;
//! `cut LEN`. Empty lines and those that begin with `# ` say nothing.
//!
//! Lines that print:
//! `c6x WORD..`: what the command puts on both outputs, of a long text the length and the sum, and its status; `c6x-hex
//! WORD..`: the same of words in hexadecimal; `cuts NAME WORD..`: what the command says where the file is cut to each length
//! from 0 on, if it is another thing than before; `at ADDRESS..`: words of the board; `sum NAME..`: lengths and sums of
//! files; `dump NAME`: a file's bytes.
#![tactic(auto)]

mod content;
mod devices;
mod digits;
mod files;
mod generated;
mod in_order;
mod listed;
mod modules;
mod sums;
mod texts;
mod trial;
mod words;

use digits::bytes_of;
use files::put_file_answer;
use generated::put_generated;
use modules::put_module_answer;
use std::alloc::Global;
use std::io::{self, BufRead, BufReader, BufWriter, Write};
use texts::{address_of, number_of};
use trial::Trial;
use words::{answer_chain, answer_shown, answer_word, spelled_words};

fn main(rt: HostRuntime) -> io::Result<()> {
    let alloc = rt.alloc();
    let mut out = BufWriter::new(alloc, io::writer(&rt))?;
    let mut trial = Trial::new(alloc)?;
    for line in BufReader::new(alloc, rt.reader())?.lines(alloc) {
        let line = line?;
        if !trial.reads(alloc, &mut out, line.as_str())? {
            answer(alloc, &mut out, line.as_str())?;
        }
    }
    out.flush()
}

/// Answers one line.
fn answer<W: Write + Drop>(alloc: Global, out: &mut W, line: &str) -> io::Result<()> {
    let mut words = line.split_whitespace();
    match words.next().unwrap_or("") {
        "elf" => {
            let bytes = bytes_of(alloc, words.next().unwrap_or("").as_bytes())?;
            put_file_answer(alloc, out, &bytes)
        }
        "module" => {
            let bytes = bytes_of(alloc, words.next().unwrap_or("").as_bytes())?;
            put_module_answer(alloc, out, &bytes)
        }
        "sources" => put_generated(alloc, out, number_of(words.next().unwrap_or(""))),
        kind => {
            let mut numbers = Vec::new(alloc);
            for word in words {
                numbers.push(address_of(word))?;
            }
            answer_numbers(out, kind, numbers.as_slice())
        }
    }
}

/// Answers a line of numbers.
fn answer_numbers<W: Write>(out: &mut W, kind: &str, numbers: &[u32]) -> io::Result<()> {
    match (kind, numbers) {
        ("word", [word, at, seed]) => answer_word(out, *word, *at, *seed),
        ("show", [word]) => answer_shown(out, *word),
        ("split", chain) => answer_chain(out, chain),
        ("count", [number, seed]) => {
            let spelled = spelled_words(*number, *seed);
            writeln!(out, "{spelled}")
        }
        _ => writeln!(out, "?"),
    }
}
