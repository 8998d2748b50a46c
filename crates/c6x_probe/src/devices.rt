ghost use Rattle.c6x_spec.specs.Memory.{CanStart};

use c6x_base::Name;
use c6x_board::Board;
use c6x_ports::{MemoryShelf, MemorySink, Shelf};
use std::alloc::{AllocError, Global};

/// The first address of each board.
const BASE: u32 = 0x8000_0000;

/// What each byte of a new board is.
const FILL: u8 = 0xAA;

/// The most bytes of a board.
const MOST_BOARD: u32 = 65_536;

/// How many bytes an output has room for: those that a process may put, and lines besides.
const OUTPUT_ROOM: u32 = 131_072;

/// Devices in memory.
#[derive(Drop)]
pub struct Devices {
    pub shelf: MemoryShelf,
    pub out: MemorySink,
    pub err: MemorySink,
    pub board: Board,
}

impl Devices {
    /// An empty shelf, empty outputs, and a board of `len` bytes. The shelf's calls with these numbers fail, of which each
    /// file that is put takes one, and the output's puts with these.
    pub fn new(
        alloc: Global,
        len: u32,
        failing_calls: Vec<u32>,
        failing_puts: Vec<u32>,
    ) -> Result<Devices, AllocError> {
        Ok(Devices {
            shelf: MemoryShelf::new(Vec::new(alloc), failing_calls),
            out: MemorySink::new(alloc, OUTPUT_ROOM, failing_puts)?,
            err: empty_output(alloc)?,
            board: filled_board(alloc, len.clamp(1, MOST_BOARD))?,
        })
    }

    /// Takes a new board of `len` bytes.
    pub fn set_board(&mut self, alloc: Global, len: u32) -> Result<(), AllocError> {
        self.board = filled_board(alloc, len.clamp(1, MOST_BOARD))?;
        Ok(())
    }

    /// Puts these bytes under this name, and tells whether they are there.
    pub fn stores(&mut self, alloc: Global, name: &str, bytes: &[u8]) -> Result<bool, AllocError> {
        let name = Name::from_bytes(alloc, name.as_bytes())?;
        Ok(self.shelf.store(alloc, &name, bytes).is_ok())
    }

    /// The bytes of a file.
    pub fn file(&self, name: &str) -> Option<&[u8]> {
        self.shelf.get(name.as_bytes())
    }

    /// A copy of the bytes of a file; none where there is no such file.
    pub fn copied(&self, alloc: Global, name: &str) -> Result<Vec<u8>, AllocError> {
        match self.file(name) {
            Some(bytes) => Vec::from_slice(alloc, bytes),
            None => Ok(Vec::new(alloc)),
        }
    }

    /// The word at an address of the board.
    pub fn word(&self, at: u32) -> Option<u32> {
        let base = self.board.base();
        let len = self.board.len();
        if at >= base && len >= 4 && at - base <= len - 4 {
            Some(self.board.read32(at))
        } else {
            None
        }
    }

    /// Empties the outputs, of which no put fails then.
    pub fn empty_outputs(&mut self, alloc: Global) -> Result<(), AllocError> {
        self.out = empty_output(alloc)?;
        self.err = empty_output(alloc)?;
        Ok(())
    }
}

/// A board of bytes that are all alike.
fn filled_board(alloc: Global, len: u32) -> Result<Board, AllocError>
    requires { CanStart BASE len }
{
    let mut board = Board::new(alloc, BASE, len)?;
    board.copy_in(BASE, &vec![in alloc; FILL; len as usize]?);
    Ok(board)
}

/// An output that has taken nothing.
fn empty_output(alloc: Global) -> Result<MemorySink, AllocError> {
    MemorySink::new(alloc, OUTPUT_ROOM, Vec::new(alloc))
}
