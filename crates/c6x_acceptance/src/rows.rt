use c6x_base::{Bytes, Name, Row};
use std::alloc::{AllocError, Global};

/// A row that grew by 1, 2 and 3 and two zeros, and was written at its third place.
fn grown(alloc: Global) -> Result<Vec<u8>, AllocError> {
    let mut row = Row::new(alloc);
    row.push(1)?;
    row.extend(&[2, 3])?;
    row.extend_zeros(2)?;
    row.write(3, 4);
    Ok(row.into_vec())
}

#[test]
fn memory_is_given(rt: HostRuntime) -> Result<(), AllocError> {
    let alloc = rt.alloc();
    let name = Name::from_bytes(alloc, b"app.out")?;
    let copied = name.copy(alloc)?;
    assert!(&rt; copied.as_bytes() == b"app.out".as_slice());
    let bytes = Bytes::from_bytes(alloc, &[1, 2, 3])?;
    assert!(&rt; bytes.as_bytes() == [1, 2, 3].as_slice());
    let row = Row::of(vec![in alloc; 7u32, 8]?);
    assert_eq!(&rt; row.as_slice().len(), 2);
    assert_eq!(&rt; row.into_vec().len(), 2);
    assert!(&rt; grown(alloc)?.as_slice() == [1, 2, 3, 4, 0].as_slice());
    Ok(())
}
