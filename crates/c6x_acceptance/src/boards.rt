use c6x_board::Board;
use std::alloc::AllocError;

// Memory is ample here, so `new` answers a board. Numbers come back as they were written, their neighbours stay, and
// what no write has reached is zero.
#[test]
fn reads_what_was_written(rt: HostRuntime) -> Result<(), AllocError> {
    let mut board = Board::new(rt.alloc(), 0x8000_0000, 32)?;
    assert_eq!(rt;
        (board.base(), board.len(), board.read32(0x8000_001C)),
        (0x8000_0000, 32, 0)
    );
    board.copy_in(0x8000_0000, &[0xAA; 32]);
    board.write32(0x8000_0004, 0x1234_5678);
    board.write16(0x8000_000A, 0xBEEF);
    board.write8(0x8000_001F, 0x7F);
    board.zero(0x8000_0010, 3);
    for (at, word) in [
        (0x8000_0000, 0xAAAA_AAAA),
        (0x8000_0004, 0x1234_5678),
        (0x8000_0008, 0xBEEF_AAAA),
        (0x8000_0010, 0xAA00_0000),
        (0x8000_001C, 0x7FAA_AAAA),
    ] {
        assert_eq!(rt; board.read32(at), word, "at {at}");
    }
    assert_eq!(rt;
        (board.read8(0x8000_0004), board.read16(0x8000_000A)),
        (0x78, 0xBEEF)
    );
    Ok(())
}

// The bytes behind the last one that was written are held nowhere, and read as zero.
#[test]
fn reads_behind_what_was_written(rt: HostRuntime) -> Result<(), AllocError> {
    let mut board = Board::new(rt.alloc(), 0x8000_0000, 32)?;
    board.write8(0x8000_0004, 0xAB);
    assert_eq!(rt;
        (board.read16(0x8000_0004), board.read32(0x8000_0002)),
        (0xAB, 0x00AB_0000)
    );
    board.zero(0x8000_0004, 12);
    assert_eq!(rt; (board.read8(0x8000_0004), board.len()), (0, 32));
    board.write16(0x8000_001E, 0xBEEF);
    assert_eq!(rt; board.read32(0x8000_001C), 0xBEEF_0000);
    assert_eq!(rt; board.read32(0x8000_0010), 0);
    Ok(())
}
