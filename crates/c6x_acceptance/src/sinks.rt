use c6x_ports::{ErrSink, MemorySink, OutSink, Sink, SinkError, put_parts};
use std::alloc::{AllocError, Global};
use std::test::Fail;

/// Whether a sink takes all of a piece.
fn takes<O: Sink>(sink: &mut O, piece: &[u8]) -> bool {
    match sink.put(piece) {
        Ok(()) => true,
        Err(SinkError::Failed) => false,
    }
}

/// A sink of five bytes, whose puts 1 and 2 fail where they have bytes, with nothing known of it.
fn failing_sink(alloc: Global) -> Result<MemorySink, AllocError> {
    MemorySink::new(alloc, 5, Vec::from_slice(alloc, &[1, 2])?)
}

#[test]
fn a_sink_in_memory(rt: HostRuntime) -> Result<(), AllocError> {
    let mut sink = failing_sink(rt.alloc())?;
    for (piece, all) in [
        ("abc", true),
        ("lost", false),
        ("", true),
        ("d", true),
        ("ef", false),
    ] {
        assert_eq!(&rt; takes(&mut sink, piece.as_bytes()), all, "{piece}");
    }
    assert!(&rt; sink.bytes() == b"abcde".as_slice());
    Ok(())
}

// The standard streams take pieces, also empty ones.
#[test]
fn standard_streams(rt: HostRuntime) -> Result<(), Fail> {
    put_parts(&mut OutSink::new(&rt), &[b"c6x: ", b"", b"out\n"])?;
    put_parts(&mut ErrSink::new(&rt), &[b"c6x: ", b"", b"err\n"])?;
    Ok(())
}
