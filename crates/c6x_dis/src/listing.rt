ghost use Rattle.std.specs.Prelude.{◌≡◌, ◌+◌, ◌*◌, ◌≤◌, ◌++◌, false, length};
ghost use Rattle.c6x_spec.specs.Printed.{hex_8};
ghost use Rattle.c6x_ports.specs.Sink.{Puts};
ghost use Rattle.c6x_dis.specs.Listed.{is_chained, listed, number_text, numbered_line, spelled_text, told_word, word_line};
ghost use Rattle.c6x_encoding.specs.Decoded.{decoded};
ghost use Rattle.c6x_encoding.specs.Spelling.{IsValid};

use crate::spelling::show;
use c6x_base::{Line, bits, hex_word};
use c6x_elf_headers::read_word;
use c6x_encoding::{Instr, decode};
use c6x_ports::{Sink, SinkError};

/// Puts a line for each whole word of code of which the first stands at `at`: its address modulo 2^32, its digits, and the
/// instruction that it spells, with `|| ` in front where the word before it is chained to it, or `.word` where it spells none.
#[tactic(auto, unfolding(crate::specs::Listed::listed))]
pub fn list<O: Sink>(bytes: &[u8], at: u32, sink: &mut O) -> Result<(), SinkError>
    ensures { Puts (listed false bytes.now at) (O.seen sink.old) (O.seen sink.new) result }
{
    for number in 0..bytes.len() / 4 {
        put_numbered(sink, bytes, at, number)?;
    }
    Ok(())
}

/// Puts the line of the word with this number.
#[tactic(auto, unfolding(crate::specs::Listed::numbered_line))]
fn put_numbered<O: Sink>(
    sink: &mut O,
    bytes: &[u8],
    at: u32,
    number: usize,
) -> Result<(), SinkError>
    requires { 4 * number + 4 ≤ length bytes.now }
    ensures { Puts (numbered_line false bytes.now at number) (O.seen sink.old) (O.seen sink.new) result }
{
    let address = (at as usize + 4 * number) % 0x1_0000_0000;
    let word = read_word(false, bytes, 4 * number);
    let line = line_of(address as u32, is_chained(bytes, number), word);
    sink.put(line.as_bytes())
}

/// Whether the word in front of the one with this number has its p bit set.
fn is_chained(bytes: &[u8], number: usize) -> bool
    requires { 4 * number + 4 ≤ length bytes.now }
    ensures { result ≡ is_chained false bytes.now number }
{
    0 < number && bits(read_word(false, bytes, 4 * (number - 1)), 0, 1) == 1
}

/// The line of a word at an address.
#[tactic(auto, unfolding(crate::specs::Listed::word_line))]
fn line_of(at: u32, chained: bool, word: u32) -> Line
    ensures { result ≡ word_line at chained word }
{
    let mut line = Line::new();
    line.push(&hex_word(at));
    line.push(b" ");
    push_digits(&mut line, word);
    line.push(b" ");
    push_told(&mut line, chained, word);
    line
}

/// Puts the digits of a word on its line.
fn push_digits(line: &mut Line, word: u32)
    requires { length line.old + 8 ≤ 256 }
    ensures is { line.new ≡ line.old ++ hex_8 word }
    ensures short { length line.new ≡ length line.old + 8 }
{
    let digits = hex_word(word);
    line.push(&digits[2..]);
}

/// Puts what is told of a word on its line.
fn push_told(line: &mut Line, chained: bool, word: u32)
    requires { length line.old + 104 ≤ 256 }
    ensures { line.new ≡ line.old ++ told_word chained word (decoded word) }
{
    match decode(word) {
        Some(instr) => push_spelled(line, chained, &instr),
        None => push_number(line, word),
    }
}

/// Puts the instruction that it spells.
#[tactic(auto, unfolding(crate::specs::Listed::spelled_text))]
fn push_spelled(line: &mut Line, chained: bool, instr: &Instr)
    requires room { length line.old + 104 ≤ 256 }
    requires valid { IsValid instr.now }
    ensures { line.new ≡ line.old ++ spelled_text chained instr.now }
{
    if chained {
        line.push(b"|| ");
    }
    line.push(show(instr).as_bytes());
    line.push(b"\n");
}

/// Puts its number.
#[tactic(auto, unfolding(crate::specs::Listed::number_text))]
fn push_number(line: &mut Line, word: u32)
    requires { length line.old + 104 ≤ 256 }
    ensures { line.new ≡ line.old ++ number_text word }
{
    line.push(b".word ");
    line.push(&hex_word(word));
    line.push(b"\n");
}
