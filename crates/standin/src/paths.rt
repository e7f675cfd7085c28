// Paths as std takes them, which are text, and what is told of a file.
ghost use Rattle.std.specs.Prelude.{◌≡◌, Some, IfErr, IfOk, pos};
ghost use Rattle.std.specs.IoError.{raw_os_error};

use std::io;
use std::io::{Error, Write};
use std::str::from_utf8;
use streams::telling::{put, tell_error};

// Room for the longest path that the system takes.
pub(crate) const PATH: usize = 4096;

// Linux's numbers of errors: no such file, a path that is too long, bytes that are no text.
const ENOENT: i32 = 2;

const ENAMETOOLONG: i32 = 36;

const EILSEQ: i32 = 84;

pub(crate) fn no_file() -> Error
    ensures { raw_os_error result ≡ Some (pos 2) }
{
    Error::from_raw_os_error(ENOENT)
}

pub(crate) fn too_long() -> Error
    ensures { raw_os_error result ≡ Some (pos 36) }
{
    Error::from_raw_os_error(ENAMETOOLONG)
}

// Gives the path as text; where it is none, no file can be named by it.
pub(crate) fn path_text(path: &[u8]) -> io::Result<&str>
    ensures text { IfOk result (λ text. text.now ≡ path.now) }
    ensures no_text { IfErr result (λ error. raw_os_error error ≡ Some (pos 84)) }
{
    from_utf8(path).map_err(|_| Error::from_raw_os_error(EILSEQ))
}

// Tells what failed, and why.
pub(crate) fn failed<E: Write>(err: &mut E, what: &[u8], error: Error) {
    put(err, b"standin: ");
    let _ = tell_error(err, what, error);
}

// Tells what failed, where something did, and answers whether nothing did.
pub(crate) fn went<E: Write>(err: &mut E, what: &[u8], done: io::Result<()>) -> bool {
    match done {
        Ok(()) => true,
        Err(error) => {
            failed(err, what, error);
            false
        }
    }
}
