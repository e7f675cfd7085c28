// The program mend: reads a printed listing from standard input, and writes the blocks of its lines, mended where a print program spoiled them. What was mended
// and what was refused it tells on standard error. The listing is a total station's, or a level's where the argument is `level`.
#![tactic(auto)]

mod turns;

ghost use Rattle.std.specs.Prelude.{◌<◌, length, OnOk, OnErr, IfSome};
ghost use Rattle.std.specs.Io.KnownBytes.{IsAtEnd};
ghost use Rattle.streams.specs.Written.{WritesStart};
ghost use Rattle.files.proofs.Taking.{laws_through};
ghost use Rattle.files.specs.Counting.{largest};
ghost use Rattle.mend.specs.Laws.{mender_laws};
ghost use Rattle.mend.specs.Mending.{mending, PutsTo, PutsPart, PutsAll, PutsStart};
ghost use Rattle.mend.specs.Turns.{begun, Reached};
ghost use Rattle.mend.specs.Put.{Due, put_in, put_of, Wrote, WroteStart, BreaksOff};

use crate::turns::{BLOCK, KEPT, Progress, TEXT, close, feed, start};
use files::asked::ask;
use files::feeding::{Sink, feed_file};
use std::io;
use std::io::{Read, Write};
use streams::write_all;
use units::kinds::Family;

// Writes what is told, and then the block, and nothing else: they are what the next byte of a listing of the family, or its end, puts out. What can't be told
// isn't written either, so that nothing is mended unseen.
fn print<T: Write, W: Write>(
    teller: &mut T,
    writer: &mut W,
    family: Family,
    block: &[u8],
    text: &[u8],
) -> io::Result<()>
    requires { Due family block.now text.now }
    ensures whole { OnOk result (Wrote (T.contents teller.old) (T.contents teller.new) (W.contents writer.old) (W.contents writer.new) (put_in block.now text.now)) }
    ensures start { WroteStart (T.contents teller.old) (T.contents teller.new) (W.contents writer.old) (W.contents writer.new) (put_in block.now text.now) }
{
    write_all(teller, text)?;
    write_all(writer, block)
}

// What mends a listing: how far it is read, what is kept of the line that comes in, the rooms for a block and for what is told, and where these go.
#[derive(Drop)]
struct Mender<'a, T, W> {
    family: Family,
    progress: Progress,
    room: [u8; KEPT],
    out: [u8; BLOCK],
    text: [u8; TEXT],
    teller: &'a mut T,
    writer: &'a mut W,
}

impl<'a, T: Write, W: Write> Sink for Mender<'a, T, W> {
    ghost Stands = { λ s. Reached s.family s.room s.progress s.out s.text };

    ghost Keeps = { λ s t. PutsTo (mending s.family s.room s.progress s.out s.text s.teller.ghost_name (T.contents s.teller.now) s.writer.ghost_name (W.contents s.writer.now)) (mending t.family t.room t.progress t.out t.text t.teller.ghost_name (T.contents t.teller.now) t.writer.ghost_name (W.contents t.writer.now)) };

    ghost Takes = { λ s l t. PutsPart (mending s.family s.room s.progress s.out s.text s.teller.ghost_name (T.contents s.teller.now) s.writer.ghost_name (W.contents s.writer.now)) l (mending t.family t.room t.progress t.out t.text t.teller.ghost_name (T.contents t.teller.now) t.writer.ghost_name (W.contents t.writer.now)) };

    ghost Ends = { λ s l t. PutsAll (mending s.family s.room s.progress s.out s.text s.teller.ghost_name (T.contents s.teller.now) s.writer.ghost_name (W.contents s.writer.now)) l (mending t.family t.room t.progress t.out t.text t.teller.ghost_name (T.contents t.teller.now) t.writer.ghost_name (W.contents t.writer.now)) };

    ghost Breaks = { λ s l t. PutsStart (mending s.family s.room s.progress s.out s.text s.teller.ghost_name (T.contents s.teller.now) s.writer.ghost_name (W.contents s.writer.now)) l (mending t.family t.room t.progress t.out t.text t.teller.ghost_name (T.contents t.teller.now) t.writer.ghost_name (W.contents t.writer.now)) };

    fn feed(&mut self, b: u8) -> io::Result<()> {
        let turn = feed(
            self.family,
            &mut self.room,
            self.progress,
            b,
            &mut self.out,
            &mut self.text,
        );
        self.progress = turn.progress;
        print(
            self.teller,
            self.writer,
            self.family,
            &self.out[..turn.bytes],
            &self.text[..turn.count],
        )
    }

    fn close(&mut self) -> io::Result<()> {
        let last = close(
            self.family,
            &self.room,
            self.progress,
            &mut self.out,
            &mut self.text,
        );
        print(
            self.teller,
            self.writer,
            self.family,
            &self.out[..last.bytes],
            &self.text[..last.count],
        )
    }

    ghost laws = { laws_through (λ s. mending s.family s.room s.progress s.out s.text s.teller.ghost_name (T.contents s.teller.now) s.writer.ghost_name (W.contents s.writer.now)) PutsTo PutsPart PutsAll PutsStart mender_laws };
}

// Reads the listing to its end, and writes what is put out for it; where a read or a write fails, it breaks off.
fn run<R: Read, T: Write, W: Write>(
    reader: &mut R,
    teller: &mut T,
    writer: &mut W,
    family: Family,
) -> io::Result<()>
    ensures whole { OnOk result (IfSome (R.remaining reader.old) (λ file. length file < largest → Wrote (T.contents teller.old) (T.contents teller.new) (W.contents writer.old) (W.contents writer.new) (put_of family file))) }
    ensures end { OnOk result (IsAtEnd (R.remaining reader.new)) }
    ensures broken { OnErr result (IfSome (R.remaining reader.old) (λ file. BreaksOff family begun file (T.contents teller.old) (T.contents teller.new) (W.contents writer.old) (W.contents writer.new))) }
    ensures told { IfSome (R.remaining reader.old) (λ file. length file < largest → WritesStart (T.contents teller.old) (T.contents teller.new) (put_of family file).told) }
    ensures blocks { IfSome (R.remaining reader.old) (λ file. length file < largest → WritesStart (W.contents writer.old) (W.contents writer.new) (put_of family file).blocks) }
{
    let mut mender = Mender {
        family,
        progress: start(),
        room: [0; KEPT],
        out: [0; BLOCK],
        text: [0; TEXT],
        teller,
        writer,
    };
    feed_file(reader, &mut mender)
}

const USAGE: &[u8] =
    b"usage: mend [level] < LISTING > FILE\ndocs/REFUSALS.md says what the number of each refusal means.\n";

// What can't be read or written ends the program without a word.
fn main(rt: HostRuntime) {
    let _ = match ask(&rt) {
        Some(family) => run(&mut rt.stdin(), &mut rt.stderr(), &mut rt.stdout(), family),
        None => write_all(&mut rt.stderr(), USAGE),
    };
}
