// Reading into a room and writing to the end, at any reader and writer: each stops at the first call that fails, and says what was read or written by then.
#![tactic(auto)]

pub mod arguments;
pub mod telling;

ghost use Rattle.std.specs.Prelude.{◌≤◌, ◌<◌, length, take, OnOk};
ghost use Rattle.std.specs.Io.KnownBytes.{Appends, Consumes, IsAtEnd};
ghost use Rattle.streams.specs.Written.{WritesStart};

use std::io;
use std::io::{Error, ErrorKind, Read, Write};

// Writes the bytes. Where a write takes nothing or fails, it stops there: what was written is the bytes' start.
pub fn write_all<W: Write>(writer: &mut W, bytes: &[u8]) -> io::Result<()>
    ensures whole { OnOk result (Appends (W.contents writer.old) (W.contents writer.new) bytes.now) }
    ensures start { WritesStart (W.contents writer.old) (W.contents writer.new) bytes.now }
{
    let mut done = 0;
    while done < bytes.len() {
        let n = writer.write(&bytes[done..])?;
        if n == 0 {
            return Err(Error::from(ErrorKind::WriteZero));
        }
        done += n;
    }
    Ok(())
}

// Reads until the room is full or the input ends, or until a read fails. Tells how many bytes stand at the room's start, and whether a read failed.
pub fn fill<R: Read>(reader: &mut R, room: &mut [u8]) -> (usize, io::Result<()>)
    ensures in_bounds { result.0 ≤ length room.new }
    ensures bytes { Consumes (R.remaining reader.old) (R.remaining reader.new) (take result.0 room.new) }
    ensures end { OnOk result.1 (result.0 < length room.new → IsAtEnd (R.remaining reader.new)) }
{
    let mut done = 0;
    while done < room.len() {
        match reader.read(&mut room[done..]) {
            Ok(0) => return (done, Ok(())),
            Ok(n) => done += n,
            Err(e) => return (done, Err(e)),
        }
    }
    (done, Ok(()))
}
