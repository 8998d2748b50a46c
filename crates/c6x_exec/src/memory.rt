ghost use Rattle.std.specs.Prelude.{◌≡◌, ◌⊎◌, ◌∷◌, ℕ, ◌+◌, ◌*◌, ◌^◌, ◌<◌, List, None, false};
ghost use Rattle.c6x_spec.specs.Memory.{Memory, IsOnMemory};
ghost use Rattle.c6x_access.specs.declared.area.Area.{Area};
ghost use Rattle.c6x_encoding.specs.Rows.{FitsAccess};
ghost use Rattle.c6x_exec.specs.declared.context.Context.{Context};
ghost use Rattle.c6x_exec.specs.Fetched.{number_in};
ghost use Rattle.c6x_board.specs.Lane.{LieOn};
ghost use Rattle.c6x_exec.specs.Fits.{IsFramed, IsSized};
ghost use Rattle.c6x_machine.specs.History.{Effect, Stores};
ghost use Rattle.c6x_machine.specs.Origin.{Origin};
ghost use Rattle.c6x_machine.specs.Packet.{low_bytes, bad_write_by};
ghost use Rattle.c6x_encoding.specs.declared.mem_op.MemOp.{MemOp};
ghost use Rattle.c6x_encoding.specs.declared.job.Job.TheVariants.{Store};
ghost use Rattle.c6x_exec.specs.Stands.{Tracks};
ghost use Rattle.c6x_board.specs.Written.{IsWritten};

use c6x_board::Board;

/// The number of 1, 2 or 4 bytes at an address.
#[tactic(auto, using(crate::proofs::Bytes::byte_number, crate::proofs::Bytes::half_number, crate::proofs::Bytes::word_number))]
pub(crate) fn read_number(board: &Board, at: u32, size: u8) -> u32
    requires size { (size ≡ 1) ⊎ (size ≡ 2) ⊎ (size ≡ 4) }
    requires on { IsOnMemory board.now at size }
    ensures value { result ≡ number_in board.now at size }
    ensures fits { result < 2 ^ (8 * size) }
{
    match size {
        1 => board.read8(at) as u32,
        2 => board.read16(at) as u32,
        _ => board.read32(at),
    }
}

/// Writes the low 1, 2 or 4 bytes of a value at an address.
#[tactic(auto, using(crate::proofs::Bytes::low_byte, crate::proofs::Bytes::low_half, crate::proofs::Bytes::low_word))]
fn write_low(board: &mut Board, at: u32, size: u8, value: u32)
    requires size { (size ≡ 1) ⊎ (size ≡ 2) ⊎ (size ≡ 4) }
    requires on { IsOnMemory board.old at size }
    ensures { IsWritten board.old at (low_bytes false size value) board.new }
{
    match size {
        1 => board.write8(at, (value % 256) as u8),
        2 => board.write16(at, (value % 65536) as u16),
        _ => board.write32(at, value),
    }
}

/// Stores the low bytes of a value at the cycle at hand.
pub(crate) fn store(board: &mut Board, at: u32, size: u8, value: u32)
    requires size { (size ≡ 1) ⊎ (size ≡ 2) ⊎ (size ≡ 4) }
    requires on { IsOnMemory board.old at size }
    ensures tracks { (p : Context) (s : Origin) (h : List Effect) (n : ℕ) → LieOn board.old s.areas → Tracks p board.old s h n (n + 1) → Tracks p board.new s (Stores n at (low_bytes false size value) ∷ h) n (n + 1) }
    ensures frame { (areas : List Area) (access : MemOp) → access.address ≡ at → access.size ≡ size → bad_write_by areas access (Store value) ≡ None → IsFramed areas board.old board.new }
    ensures sized { IsSized board.old board.new }
{
    write_low(board, at, size, value);
}
