//! The program `c6x`: it makes the real devices and the named policies, and does what its words ask for.
#![tactic(auto)]

use c6x_base::Name;
use c6x_board::Board;
use c6x_cli::command;
use c6x_ports::{DirShelf, DrawnBySeed, ErrSink, LastFirst, OutSink, Policy, RoundRobin, Sink};
use std::alloc::AllocError;
use std::env;
use std::io::ErrorKind;
use std::process::ExitCode;

/// The first address of the board.
const BOARD_BASE: u32 = 0x8000_0000;
/// The length of the board in bytes.
const BOARD_LEN: u32 = 16_777_216;
/// The status where memory ran out before the command began.
const NO_MEMORY: u8 = 7;

fn main(rt: HostRuntime) -> ExitCode {
    match run(&rt) {
        Ok(status) => ExitCode::from(status),
        Err(_) => {
            let _unsaid = ErrSink::new(&rt).put(b"c6x: memory\n");
            ExitCode::from(NO_MEMORY)
        }
    }
}

/// Does what the words behind the program's name ask for, over the working folder and the standard streams.
fn run(rt: &HostRuntime) -> Result<u8, AllocError> {
    let words = command_words(rt)?;
    let mut board = Board::new(rt.alloc(), BOARD_BASE, BOARD_LEN)?;
    run_words(rt, words, &mut board)
}

/// Does what these words ask for, under the named policies.
fn run_words(rt: &HostRuntime, words: Vec<Name>, board: &mut Board) -> Result<u8, AllocError> {
    let alloc = rt.alloc();
    let round: Box<dyn Policy> = Box::new(alloc, RoundRobin::new())?;
    let last: Box<dyn Policy> = Box::new(alloc, LastFirst::new())?;
    let drawn: Box<dyn Policy> = Box::new(alloc, DrawnBySeed::new())?;
    let policies = vec![in alloc; round, last, drawn]?;
    Ok(perform(rt, words, board, policies))
}

/// The same under these policies.
fn perform(
    rt: &HostRuntime,
    words: Vec<Name>,
    board: &mut Board,
    mut policies: Vec<Box<dyn Policy>>,
) -> u8 {
    let mut shelf = DirShelf::new(rt);
    let mut out = OutSink::new(rt);
    let mut err = ErrSink::new(rt);
    command(
        rt.alloc(),
        words,
        &mut shelf,
        &mut out,
        &mut err,
        board,
        &mut policies,
    )
}

/// The words behind the program's name. A list with a word that is not UTF-8 has no reading, as the empty list has none.
fn command_words(rt: &HostRuntime) -> Result<Vec<Name>, AllocError> {
    let alloc = rt.alloc();
    let mut words = Vec::new(alloc);
    match env::args(rt) {
        Ok(args) => {
            for word in args.skip(1) {
                words.push(Name::from_bytes(alloc, word.as_bytes())?)?;
            }
            Ok(words)
        }
        Err(error) if error.kind() == ErrorKind::OutOfMemory => Err(AllocError),
        Err(_) => Ok(words),
    }
}
