// Looking at a name, and opening it.
ghost use Rattle.std.specs.Prelude.{◌≡◌, true, ◌↔◌, IsOk, IfOk, IsUtf8};
ghost use Rattle.system.specs.Paths.{is_path};

use std::fs::{self, File};
use std::io::{Error, ErrorKind, Result};
use std::rt::Files;

// The most bytes of a path, with the 0 that ends it.
const PATH_MAX: usize = 4096;

// Whether a name can be handed on whole.
fn is_path(name: &[u8]) -> bool
    ensures { result ≡ is_path name.now }
{
    name.len() < PATH_MAX && !name.contains(&0)
}

// The path that a name is. The system's paths are any bytes; std's are text, so a name that is none has no path.
fn path_of(name: &[u8]) -> Result<&str>
    ensures same { IfOk result (λ path. path.now ≡ name.now) }
    ensures text { IsOk result ↔ IsUtf8 name.now }
{
    str::from_utf8(name).map_err(|_| Error::from(ErrorKind::InvalidInput))
}

// Looks at the file at a path, a link's file where it is a link, and says whether it is a regular one.
fn look<R: Files>(files: &R, path: &str) -> bool {
    fs::metadata(files, path).is_ok_and(|found| found.is_file())
}

// Whether a name is a file's that can be read to its end: a regular file, and no folder, pipe or device. The name is looked at and
// not opened, so it does not wait for a pipe's other end. A name that cannot be handed on whole is no file's.
pub fn is_file<R: Files>(files: &R, name: &[u8]) -> bool
    ensures path { result ≡ true → is_path name.now ≡ true }
    ensures text { result ≡ true → IsUtf8 name.now }
{
    if !is_path(name) {
        return false;
    }
    match path_of(name) {
        Ok(path) => look(files, path),
        Err(_) => false,
    }
}

// Opens the file of a name for reading. It is closed where it is dropped.
pub fn open<R: Files>(files: &R, name: &[u8]) -> Result<R::File> {
    File::open(files, path_of(name)?)
}
