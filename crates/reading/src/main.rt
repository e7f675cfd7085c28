// The program reading: reads a GSI file from standard input, and prints what stands in each of its blocks. The file is a total station's, or a
// level's where the argument is `level`.
#![tactic(auto)]

mod turns;

ghost use Rattle.std.specs.Prelude.{◌≡◌, ◌<◌, length, OnOk, IfSome};
ghost use Rattle.std.specs.Io.KnownBytes.{Appends, IsAtEnd};
ghost use Rattle.streams.specs.Written.{WritesStart};
ghost use Rattle.files.specs.Counting.{largest};
ghost use Rattle.reading.specs.Turns.{Reached};
ghost use Rattle.reading.specs.Printed.{Due, printed_of};
ghost use Rattle.reading.specs.Printing.{printing, PrintsTo, PrintsPart, PrintsAll, PrintsStart};
ghost use Rattle.files.proofs.Taking.{laws_through};
ghost use Rattle.reading.specs.Laws.{printer_laws};

use crate::turns::{KEPT, Progress, TEXT, close, feed, start};
use files::asked::ask;
use files::feeding::{Sink, feed_file};
use std::io;
use std::io::{Read, Write};
use streams::write_all;
use units::kinds::Family;

// Writes the text and nothing else: it is what the next byte of a file of the family, or its end, puts out. Where that fails, the start of it was written.
fn print<W: Write>(writer: &mut W, family: Family, text: &[u8]) -> io::Result<()>
    requires { Due family text.now }
    ensures whole { OnOk result (Appends (W.contents writer.old) (W.contents writer.new) text.now) }
    ensures start { WritesStart (W.contents writer.old) (W.contents writer.new) text.now }
{
    write_all(writer, text)
}

// What prints a file: how far it is read, what is kept of the piece that comes in, the room for a report, and where reports go.
#[derive(Drop)]
struct Printer<'a, W> {
    family: Family,
    progress: Progress,
    room: [u8; KEPT],
    text: [u8; TEXT],
    writer: &'a mut W,
}

impl<'a, W: Write> Sink for Printer<'a, W> {
    ghost Stands = { λ s. Reached s.family s.room s.progress s.text };

    ghost Keeps = { λ s t. t.writer.ghost_name ≡ s.writer.ghost_name };

    ghost Takes = { λ s l t. PrintsPart (printing s.family s.room s.progress s.text s.writer.ghost_name (W.contents s.writer.now)) l (printing t.family t.room t.progress t.text t.writer.ghost_name (W.contents t.writer.now)) };

    ghost Ends = { λ s l t. PrintsAll (printing s.family s.room s.progress s.text s.writer.ghost_name (W.contents s.writer.now)) l (printing t.family t.room t.progress t.text t.writer.ghost_name (W.contents t.writer.now)) };

    ghost Breaks = { λ s l t. PrintsStart (printing s.family s.room s.progress s.text s.writer.ghost_name (W.contents s.writer.now)) l (printing t.family t.room t.progress t.text t.writer.ghost_name (W.contents t.writer.now)) };

    fn feed(&mut self, b: u8) -> io::Result<()> {
        let count = feed(
            self.family,
            &mut self.room,
            &mut self.progress,
            b,
            &mut self.text,
        );
        print(self.writer, self.family, &self.text[..count])
    }

    fn close(&mut self) -> io::Result<()> {
        let n = close(self.family, &self.room, self.progress, &mut self.text);
        print(self.writer, self.family, &self.text[..n])
    }

    ghost laws = { laws_through (λ s. printing s.family s.room s.progress s.text s.writer.ghost_name (W.contents s.writer.now)) PrintsTo PrintsPart PrintsAll PrintsStart printer_laws };
}

// Reads the file to its end, and writes what is printed of it; where a read or a write fails, the start of that.
fn run<R: Read, W: Write>(reader: &mut R, writer: &mut W, family: Family) -> io::Result<()>
    ensures whole { OnOk result (IfSome (R.remaining reader.old) (λ file. length file < largest → Appends (W.contents writer.old) (W.contents writer.new) (printed_of family file))) }
    ensures end { OnOk result (IsAtEnd (R.remaining reader.new)) }
    ensures start { IfSome (R.remaining reader.old) (λ file. length file < largest → WritesStart (W.contents writer.old) (W.contents writer.new) (printed_of family file)) }
{
    let mut printer = Printer {
        family,
        progress: start(),
        room: [0; KEPT],
        text: [0; TEXT],
        writer,
    };
    feed_file(reader, &mut printer)
}

const USAGE: &[u8] =
    b"usage: reading [level] < FILE\ndocs/REFUSALS.md says what the number of each refusal means.\n";

// What can't be read or written ends the program without a word.
fn main(rt: HostRuntime) {
    let _ = match ask(&rt) {
        Some(family) => run(&mut rt.stdin(), &mut rt.stdout(), family),
        None => write_all(&mut rt.stderr(), USAGE),
    };
}
