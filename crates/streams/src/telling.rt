// What is told as far as it can be written, texts and numbers, and what went wrong, in a line: what failed, a colon, and the system's text.
ghost use Rattle.std.specs.Prelude.{◌≡◌, ◌≤◌, ℕ, List, ◌++◌, length, codes, decimal, OnOk, true};
ghost use Rattle.std.specs.Io.KnownBytes.{Appends};
ghost use Rattle.streams.specs.Written.{WritesStart};

use crate::write_all;
use std::io;
use std::io::{Cursor, Error, Write};

// Room enough for the text of any error.
const ROOM: usize = 256;

// What stands after the system's text where std shows an error: its number.
const NUMBER: &[u8] = b" (os error ";

// Writes a text, as far as that can be done.
pub fn put<W: Write>(writer: &mut W, text: &[u8])
    ensures { WritesStart (W.contents writer.old) (W.contents writer.new) text.now }
{
    let _ = write_all(writer, text);
}

// Writes a text and a number, each as far as that can be done, and answers whether both are written.
pub fn put_number<W: Write>(writer: &mut W, what: &[u8], n: u64) -> bool
    ensures { result ≡ true → Appends (W.contents writer.old) (W.contents writer.new) (what.now ++ decimal n) }
{
    let told = write_all(writer, what).is_ok();
    let counted = write!(writer, "{n}").is_ok();
    told && counted
}

// Counts the bytes of a text before its number, or before the noughts that nothing was put over.
fn before_number(text: &[u8]) -> usize
    ensures { result ≤ length text.now }
{
    (0..text.len())
        .find(|n| text[*n] == 0 || text[*n..].starts_with(NUMBER))
        .unwrap_or(text.len())
}

// Writes the line that tells of an error.
pub fn tell_error<W: Write>(writer: &mut W, what: &[u8], error: Error) -> io::Result<()>
    ensures { OnOk result ((text : List ℕ) × Appends (W.contents writer.old) (W.contents writer.new) (what.now ++ (codes ": " ++ (text ++ codes "\n")))) }
{
    let mut room = Cursor::new([0u8; ROOM]);
    write!(room, "{error}")?;
    let text = room.into_inner();
    let n = before_number(&text);
    write_all(writer, what)?;
    write_all(writer, b": ")?;
    write_all(writer, &text[..n])?;
    write_all(writer, b"\n")?;
    Ok(())
}
