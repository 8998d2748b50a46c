use c6x_access::{Area, Map, Right};
use std::alloc::{AllocError, Global};

const TEXT: Area = Area {
    lo: 0x8000_0000,
    len: 8,
    read: true,
    write: false,
    run: true,
};

const STACK: Area = Area {
    lo: 0x8000_0008,
    len: 8,
    read: true,
    write: true,
    run: false,
};

/// The map of both areas, with nothing known of it.
fn both(alloc: Global) -> Result<Map, AllocError> {
    let mut map = Map::new(alloc);
    map.add(TEXT)?;
    map.add(STACK)?;
    Ok(map)
}

// Memory is ample here, so both areas are added.
#[test]
fn asks_each_byte(rt: HostRuntime) -> Result<(), AllocError> {
    let map = both(rt.alloc())?;
    for (at, len, right, allowed) in [
        (0x8000_0006, 4, Right::Read, true),
        (0x8000_0006, 4, Right::Write, false),
        (0x8000_000C, 4, Right::Write, true),
        (0x8000_000D, 4, Right::Write, false),
        (0x8000_0008, 4, Right::Run, false),
        (0xFFFF_FFFF, 2, Right::Read, false),
    ] {
        assert_eq!(&rt; map.allows(at, len, right), allowed, "{len} bytes at {at}");
    }
    Ok(())
}
