ghost use Rattle.std.specs.Prelude.{◌≡◌};
ghost use Rattle.c6x_ports.specs.Sink.{Puts};
ghost use Rattle.c6x_cli_steps.specs.Lines.{Reports, error_line, error_status, refused_line, write_fault_line};

use crate::cause::{Cause, Refusal};
use crate::prepare_error::PrepareError;
use c6x_ports::{Sink, SinkError, put_parts};
use itoa::Buffer;

/// The status of a command whose words have no reading.
const USAGE: u8 = 2;
/// The status where a file is missing.
const MISSING: u8 = 3;
/// The status of a refusal.
const REFUSED: u8 = 4;
/// The status where the shelf could not read.
const READ_FAULT: u8 = 5;
/// The status where a sink could not write.
const WRITE_FAULT: u8 = 6;
/// The status where memory ran out.
const MEMORY: u8 = 7;

/// Puts the line of an error, and gives its status.
pub fn report_error<E: Sink>(err: &mut E, error: PrepareError) -> u8
    ensures { Reports (error_line error) (error_status error) result (E.seen err.old) (E.seen err.new) }
{
    let status = status_of(&error);
    match put_error(err, error) {
        Ok(()) => status,
        Err(SinkError::Failed) => WRITE_FAULT,
    }
}

/// Puts the line of a write fault, and gives its status.
#[tactic(auto, unfolding(crate::specs::Lines::write_fault_line))]
pub fn report_write_fault<E: Sink>(err: &mut E) -> u8
    ensures { Reports write_fault_line 6 result (E.seen err.old) (E.seen err.new) }
{
    match err.put(b"c6x: write fault\n") {
        Ok(()) => WRITE_FAULT,
        Err(SinkError::Failed) => WRITE_FAULT,
    }
}

/// The status of an error.
fn status_of(error: &PrepareError) -> u8
    ensures { result ≡ error_status error.now }
{
    match error {
        PrepareError::Because(Cause::Usage) => USAGE,
        PrepareError::Because(Cause::Missing(_)) => MISSING,
        PrepareError::Because(Cause::Refused(_)) => REFUSED,
        PrepareError::ReadFault(_) => READ_FAULT,
        PrepareError::Memory => MEMORY,
    }
}

/// Puts the line of an error.
#[tactic(auto, unfolding(crate::specs::Lines::usage_line, crate::specs::Lines::missing_line, crate::specs::Lines::read_fault_line, crate::specs::Lines::memory_line))]
fn put_error<E: Sink>(err: &mut E, error: PrepareError) -> Result<(), SinkError>
    ensures { Puts (error_line error) (E.seen err.old) (E.seen err.new) result }
{
    match error {
        PrepareError::Because(Cause::Usage) => err.put(b"c6x: usage\n"),
        PrepareError::Because(Cause::Missing(name)) => put_parts(
            err,
            &[b"c6x: missing ", name.as_bytes(), b"\n"],
        ),
        PrepareError::Because(Cause::Refused(refusal)) => put_refusal(err, &refusal),
        PrepareError::ReadFault(name) => put_parts(
            err,
            &[b"c6x: read fault ", name.as_bytes(), b"\n"],
        ),
        PrepareError::Memory => err.put(b"c6x: memory\n"),
    }
}

/// Puts the line of a refusal.
#[tactic(auto, unfolding(crate::specs::Lines::refused_line))]
fn put_refusal<E: Sink>(err: &mut E, refusal: &Refusal) -> Result<(), SinkError>
    ensures { Puts (refused_line refusal.now.rule refusal.now.subject refusal.now.number) (E.seen err.old) (E.seen err.new) result }
{
    let mut buffer = Buffer::new();
    let number = refusal.number;
    let digits = buffer.format(number).as_bytes();
    put_parts(
        err,
        &[
            b"c6x: refused ",
            refusal.rule.as_bytes(),
            b" ",
            refusal.subject.as_bytes(),
            b" ",
            digits,
            b"\n",
        ],
    )
}
