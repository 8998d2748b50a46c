ghost use Rattle.std.specs.Prelude.{◌≡◌, ◌<◌};

use c6x_base::Name;
use c6x_base::limits::MOST_FILE_BYTES;
use c6x_ports::{DirShelf, MemoryShelf, Shelf, ShelfError};
use std::alloc::{AllocError, Global};
use std::test::Fail;
use std::{env, fs};

/// What a fetch of a file with so many bytes at most gives: its bytes, or the letter of its error.
fn fetched<S: Shelf>(
    shelf: &mut S,
    alloc: Global,
    name: &Name,
    most: u32,
) -> Result<Vec<u8>, AllocError>
    requires { most < 4294967295 }
{
    match shelf.fetch(alloc, name, most) {
        Ok(bytes) => Ok(bytes),
        Err(ShelfError::Missing) => Vec::from_slice(alloc, b"M"),
        Err(ShelfError::Failed) => Vec::from_slice(alloc, b"F"),
        Err(ShelfError::NoMemory) => Err(AllocError),
    }
}

/// Whether the shelf takes the bytes under the name.
fn takes<S: Shelf>(shelf: &mut S, alloc: Global, name: &Name, bytes: &[u8]) -> bool {
    shelf.store(alloc, name, bytes).is_ok()
}

/// An empty shelf, whose calls 2 and 4 fail.
fn failing_shelf(alloc: Global) -> Result<MemoryShelf, AllocError> {
    Ok(MemoryShelf::new(Vec::new(alloc), Vec::from_slice(alloc, &[2, 4])?))
}

/// Whether the file of this name is one of these bytes.
fn holds(shelf: &MemoryShelf, name: &[u8], bytes: &[u8]) -> bool {
    shelf.get(name) == Some(bytes)
}

// Memory is ample: a file comes whole or cut, and a store stands in its old place or last.
#[test]
fn a_shelf_in_memory(rt: HostRuntime) -> Result<(), Fail> {
    let alloc = rt.alloc();
    let plan = Name::from_bytes(alloc, b"one.plan")?;
    let app = Name::from_bytes(alloc, b"app.out")?;
    let mut shelf = failing_shelf(alloc)?;
    assert!(&rt; takes(&mut shelf, alloc, &plan, b"0123456789AB"));
    assert!(&rt; fetched(&mut shelf, alloc, &plan, 9)?.as_slice() == b"0123456789".as_slice());
    assert!(&rt; fetched(&mut shelf, alloc, &plan, 9)?.as_slice() == b"F".as_slice());
    assert!(&rt; fetched(&mut shelf, alloc, &app, 9)?.as_slice() == b"M".as_slice());
    assert!(&rt; !takes(&mut shelf, alloc, &app, b"lost"));
    assert!(&rt; takes(&mut shelf, alloc, &app, b"code"));
    assert!(&rt; takes(&mut shelf, alloc, &plan, b"other"));
    assert!(&rt; fetched(&mut shelf, alloc, &plan, 9)?.as_slice() == b"other".as_slice());
    assert!(&rt; holds(&shelf, b"app.out", b"code"));
    Ok(())
}

// A file of 4 MiB comes back as it was stored.
#[test]
fn files_of_the_system(rt: HostRuntime) -> Result<(), Fail> {
    let alloc = rt.alloc();
    let id = std::process::id(rt.process());
    let path = format!(in alloc;
        "{}/c6x_shelves_{id}",
        env::temp_dir(&rt)?.as_path().display()
    )?;
    let name = Name::from_bytes(alloc, path.as_bytes())?;
    let mut shelf = DirShelf::new(&rt);
    assert!(&rt; fetched(&mut shelf, alloc, &name, 9)?.as_slice() == b"M".as_slice());
    let large = vec![in alloc; b'-'; MOST_FILE_BYTES as usize]?;
    assert!(&rt; takes(&mut shelf, alloc, &name, &large));
    assert!(&rt;
        fetched(&mut shelf, alloc, &name, MOST_FILE_BYTES)?.as_slice() == large.as_slice()
    );
    assert!(&rt; fetched(&mut shelf, alloc, &name, 9)?.as_slice() == b"----------".as_slice());
    fs::remove_file(&rt, path.as_str())?;
    Ok(())
}

// A folder is no file to read or write, and a name that is not UTF-8 names none.
#[test]
fn names_of_no_file(rt: HostRuntime) -> Result<(), Fail> {
    let alloc = rt.alloc();
    let mut shelf = DirShelf::new(&rt);
    for (bytes, answer) in [(b".", b"F"), (b"\xFF", b"M")] {
        let name = Name::from_bytes(alloc, bytes)?;
        assert!(&rt; fetched(&mut shelf, alloc, &name, 9)?.as_slice() == answer.as_slice());
        assert!(&rt; !takes(&mut shelf, alloc, &name, b""));
    }
    Ok(())
}
