// The program sheet: plays the lines of standard input from the factory state, and prints the sheet of what comes of it.
#![tactic(auto)]

ghost use Rattle.std.specs.Prelude.{List, ℕ, IfSome, OnOk};
ghost use Rattle.std.specs.Io.KnownBytes.{Appends, Consumes};
ghost use Rattle.streams.specs.Written.{WritesStart};
ghost use Rattle.sheets.specs.Playing.{printed};

use sheets::playing::play;
use std::io;
use std::io::{Read, Write};
use streams::{fill, write_all};

// Plays what is read and writes what is printed of it, or where a write fails, the start of that. Where a read fails, it plays what came before; one byte
// more than an input may have is enough to refuse it.
fn run<R: Read, W: Write>(reader: &mut R, writer: &mut W) -> io::Result<()>
    ensures plays { (input : List ℕ) × Consumes (R.remaining reader.old) (R.remaining reader.new) input × WritesStart (W.contents writer.old) (W.contents writer.new) (printed input) }
    ensures whole { OnOk result (IfSome (R.remaining reader.old) (λ input. Appends (W.contents writer.old) (W.contents writer.new) (printed input))) }
{
    let mut input = [0; 65537];
    let (n, read) = fill(reader, &mut input);
    let mut sheet = [0; 352];
    let k = play(&input[..n], &mut sheet);
    write_all(writer, &sheet[..k])?;
    read
}

// What can't be read or written ends the program without a word.
fn main(rt: HostRuntime) {
    let _ = run(&mut rt.stdin(), &mut rt.stdout());
}
