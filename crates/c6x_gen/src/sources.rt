ghost use Rattle.std.specs.Prelude.{◌≡◌, ◌≤◌, ◌∷◌, ◌++◌, IfOk, OnOk};
ghost use Rattle.c6x_gen.specs.Lists.{each_below, each_library};
ghost use Rattle.c6x_gen.specs.Sources.{app_source, call_line, called, calls, counter, library_source};

use crate::names::library_name;
use c6x_base::{Bytes, Line, Row};
use itoa::Buffer;
use std::alloc::{AllocError, Global};

/// What stands before the calls of the executable.
const OPENING: &[u8] =
    b"        .sect \".text\"\n        .global start\nstart:  STW .D2T2 B3,*B15--[2]\n";

/// What stands behind them.
const CLOSING: &[u8] = b"        LDW .D2T2 *++B15[2],B3\n        NOP 4\n        BNOP .S2 B3,5\n";

/// The code of a library behind its name, up to its counter.
const FUNCTION: &[u8] =
    b":  STW .D2T2 B14,*B15--[2]\n        LDW .D2T2 *+B14(%dsbt_index),B14\n        NOP 4\n        LDW .D2T1 *+B14(count),A5\n        NOP 4\n        ADD .L1 A4,A5,A4\n        STW .D2T1 A4,*+B14(count)\n        LDW .D2T2 *++B15[2],B14\n        BNOP .S2 B3,5\n        .sect \".neardata\"\ncount:  .word ";

/// The sources, in the order of the modules.
#[tactic(auto, using(crate::proofs::Each::none, crate::proofs::Each::more))]
pub fn sources_of(alloc: Global, number: u32) -> Result<Row<Bytes>, AllocError>
    requires { number ≤ 999999 }
    ensures { IfOk result (λ sources. sources ≡ app_source number ∷ each_library (library_source number)) }
{
    let mut sources = Row::new(alloc);
    sources.push(app_source(alloc, number)?)?;
    for before in 0..11 {
        sources.push(library_source(alloc, number, before + 1)?)?;
    }
    Ok(sources)
}

/// The source of the executable.
#[tactic(auto, unfolding(crate::specs::Sources::app_source))]
fn app_source(alloc: Global, number: u32) -> Result<Bytes, AllocError>
    requires { number ≤ 999999 }
    ensures { IfOk result (λ source. source ≡ app_source number) }
{
    let mut text = Row::new(alloc);
    text.extend(OPENING)?;
    add_calls(&mut text, number)?;
    text.extend(CLOSING)?;
    Ok(Bytes::of(text.into_vec()))
}

/// Adds the lines that call.
#[tactic(auto, using(crate::proofs::Each::none_behind, crate::proofs::Each::more_behind))]
fn add_calls(text: &mut Row<u8>, number: u32) -> Result<(), AllocError>
    requires { number ≤ 999999 }
    ensures { OnOk result (text.new ≡ text.old ++ each_below (calls number) (call_line number)) }
{
    for line in 0..1 + number % 1000 {
        let call = call_line(number, line);
        text.extend(call.as_bytes())?;
    }
    Ok(())
}

/// The line that calls the library whose turn it is.
fn call_line(number: u32, line: u32) -> Line
    requires small { number ≤ 999999 }
    requires few { line ≤ 1000 }
    ensures { result ≡ call_line number line }
{
    let name = library_name(called(number, line));
    let mut text = Line::new();
    text.push(b"        CALLP .S2 ");
    text.push(name.as_bytes());
    text.push(b",B3\n");
    text
}

/// The library that a line calls.
fn called(number: u32, line: u32) -> u32
    requires small { number ≤ 999999 }
    requires few { line ≤ 1000 }
    ensures { result ≡ called number line }
{
    1 + (number + 3 * line) % 11
}

/// The counter of a library at the start.
fn counter(number: u32, library: u32) -> u32
    requires small { number ≤ 999999 }
    requires few { library ≤ 11 }
    ensures { result ≡ counter number library }
{
    number * library % 1000
}

/// The source of a library.
#[tactic(auto, unfolding(crate::specs::Sources::library_source))]
fn library_source(alloc: Global, number: u32, library: u32) -> Result<Bytes, AllocError>
    requires small { number ≤ 999999 }
    requires few { library ≤ 11 }
    ensures { IfOk result (λ source. source ≡ library_source number library) }
{
    let name = library_name(library);
    let mut digits = Buffer::new();
    let first = digits.format(counter(number, library)).as_bytes();
    let mut text = Row::new(alloc);
    text.extend(b"        .sect \".text\"\n        .global ")?;
    text.extend(name.as_bytes())?;
    text.extend(b"\n")?;
    text.extend(name.as_bytes())?;
    text.extend(FUNCTION)?;
    text.extend(first)?;
    text.extend(b"\n")?;
    Ok(Bytes::of(text.into_vec()))
}
