ghost use Rattle.std.specs.Prelude.{◌≡◌, ◌+◌, ◌++◌, ◌≤◌, decimal, length, IfOk};
ghost use Rattle.c6x_gen.specs.Links.{object_name};
ghost use Rattle.c6x_gen.specs.Sources.{library_name};

use c6x_base::{Line, Name};
use itoa::Buffer;
use std::alloc::{AllocError, Global};

/// A letter and a number behind it.
pub fn numbered(letter: &[u8], number: u32) -> Line
    requires { length letter.now ≤ 1 }
    ensures name { result ≡ letter.now ++ decimal number }
    ensures short { length result ≤ 41 }
{
    let mut digits = Buffer::new();
    let mut line = Line::new();
    line.push(letter);
    line.push(digits.format(number).as_bytes());
    line
}

/// The name of a library.
pub fn library_name(library: u32) -> Line
    ensures name { result ≡ library_name library }
    ensures short { length result ≤ 41 }
{
    numbered(b"f", library)
}

/// The name of a library, in memory of its own.
pub fn named_library(alloc: Global, library: u32) -> Result<Name, AllocError>
    ensures { IfOk result (λ name. name ≡ library_name library) }
{
    let name = library_name(library);
    Name::from_bytes(alloc, name.as_bytes())
}

/// The name of a module's object.
pub fn object_name(alloc: Global, image: &[u8]) -> Result<Name, AllocError>
    requires { length image.now ≤ 41 }
    ensures { IfOk result (λ name. name ≡ object_name image.now) }
{
    let mut line = Line::new();
    line.push(image);
    line.push(b".o");
    Name::from_bytes(alloc, line.as_bytes())
}
