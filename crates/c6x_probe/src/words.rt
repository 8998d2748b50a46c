ghost use Rattle.c6x_encoding.specs.Rows.{FitsAccess};

use c6x_base::Side;
use c6x_dis::show;
use c6x_isa::{MemOp, Regs, Write as RegisterWrite, decode, effects, encode, write_of_load};
use c6x_packet::{is_chain, split};
use std::io::{self, Write};

/// The instruction of a word, its word again, and what it does.
pub fn answer_word<W: Write>(out: &mut W, word: u32, at: u32, seed: u32) -> io::Result<()> {
    match decode(word) {
        Some(instr) => {
            let again = encode(&instr);
            let done = effects(&instr, at, at.wrapping_add(4), &drawn(seed));
            let loaded = done.access.and_then(|access| loaded(access, seed));
            writeln!(out, "{again:08x} {instr:?} {done:?} {loaded:?}")
        }
        None => writeln!(out, "none"),
    }
}

/// The line of the instruction of a word; an empty one where it spells none.
pub fn answer_shown<W: Write>(out: &mut W, word: u32) -> io::Result<()> {
    if let Some(instr) = decode(word) {
        out.write_all(show(&instr).as_bytes())?;
    }
    out.write_all(b"\n")
}

/// What the access writes to a register, where it read the low bytes of a number.
fn loaded(access: MemOp, number: u32) -> Option<RegisterWrite>
    requires { FitsAccess access }
{
    let read = match access.size {
        1 => number % 0x100,
        2 => number % 0x1_0000,
        _ => number,
    };
    write_of_load(access, read)
}

/// The number behind this one in a drawn row of numbers.
fn drawn_after(number: u32) -> u32 {
    number.wrapping_mul(1_664_525).wrapping_add(1_013_904_223)
}

/// How many of the words drawn from a seed spell an instruction.
pub fn spelled_words(number: u32, seed: u32) -> u32 {
    let mut next = seed;
    let mut spelled = 0u32;
    for _ in 0..number {
        next = drawn_after(next);
        if decode(next).is_some() {
            spelled = spelled.saturating_add(1);
        }
    }
    spelled
}

/// Registers drawn from a seed, of which about a quarter are zero.
fn drawn(seed: u32) -> Regs {
    let mut regs = Regs::zero();
    let mut next = seed;
    for side in [Side::A, Side::B] {
        for number in 0..32 {
            next = drawn_after(next);
            if next >> 30 != 0 {
                regs.set(side, number, next);
            }
        }
    }
    regs
}

/// The length of the packet of a chain, or the rule that it breaks.
pub fn answer_chain<W: Write>(out: &mut W, chain: &[u32]) -> io::Result<()> {
    if !is_chain(chain) {
        return writeln!(out, "?");
    }
    match split(chain) {
        Ok(packet) => {
            let len = packet.len();
            writeln!(out, "{len}")
        }
        Err(error) => writeln!(out, "{error:?}"),
    }
}
