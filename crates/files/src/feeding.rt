// A file that is read to its end: each of its bytes is fed in turn to what takes them, and then the end.
ghost use Rattle.std.specs.Prelude.{ℕ, List, [], ◌∷◌, ◌++◌, OnOk, OnErr, IfSome};
ghost use Rattle.std.specs.Io.KnownBytes.{IsAtEnd};
ghost use Rattle.files.specs.Feeding.{SinkLaws};

use std::io;
use std::io::{Error, ErrorKind, Read};

// What takes a file's bytes one by one, and then its end.
pub trait Sink {
    // Where it may stand.
    ghost Stands: { Self → Type 0 };

    // It holds the same references, so that who lent them learns what became of what they lead to.
    ghost Keeps: { Self → Self → Type 0 };

    // All of these bytes were taken, from where it stood first to where it stands.
    ghost Takes: { Self → List ℕ → Self → Type 0 };

    // All of these bytes were taken, and the file's end after them.
    ghost Ends: { Self → List ℕ → Self → Type 0 };

    // It broke off somewhere in these bytes, or at the file's end after them.
    ghost Breaks: { Self → List ℕ → Self → Type 0 };

    fn feed(&mut self, b: u8) -> io::Result<()>
        requires { Stands self.old }
        ensures keeps { Keeps self.old self.new }
        ensures stands { OnOk result (Stands self.new) }
        ensures takes { OnOk result (Takes self.old (b ∷ []) self.new) }
        ensures breaks { OnErr result ((rest : List ℕ) → Breaks self.old (b ∷ rest) self.new) };

    fn close(&mut self) -> io::Result<()>
        requires { Stands self.old }
        ensures keeps { Keeps self.old self.new }
        ensures ends { OnOk result (Ends self.old [] self.new) }
        ensures breaks { OnErr result (Breaks self.old [] self.new) };

    ghost laws: { SinkLaws Keeps Takes Ends Breaks };
}

// Feeds the bytes of one read.
fn feed_all<S: Sink>(sink: &mut S, bytes: &[u8]) -> io::Result<()>
    requires { S.Stands sink.old }
    ensures keeps { S.Keeps sink.old sink.new }
    ensures stands { OnOk result (S.Stands sink.new) }
    ensures takes { OnOk result (S.Takes sink.old bytes.now sink.new) }
    ensures breaks { OnErr result ((rest : List ℕ) → S.Breaks sink.old (bytes.now ++ rest) sink.new) }
{
    for b in bytes {
        sink.feed(*b)?;
    }
    Ok(())
}

// Reads the file to its end and feeds it. A read that fails isn't the end of the file: nothing more is fed. A proved loop has to end, so this one counts its
// turns up to a number that no run comes to.
pub fn feed_file<R: Read, S: Sink>(reader: &mut R, sink: &mut S) -> io::Result<()>
    requires { S.Stands sink.old }
    ensures keeps { S.Keeps sink.old sink.new }
    ensures whole { OnOk result (IfSome (R.remaining reader.old) (λ file. S.Ends sink.old file sink.new)) }
    ensures end { OnOk result (IsAtEnd (R.remaining reader.new)) }
    ensures breaks { OnErr result (IfSome (R.remaining reader.old) (λ file. S.Breaks sink.old file sink.new)) }
{
    let mut bytes = [0; 65536];
    for _ in 0..u64::MAX {
        let n = reader.read(&mut bytes)?;
        if n == 0 {
            sink.close()?;
            return Ok(());
        }
        feed_all(sink, &bytes[..n])?;
    }
    Err(Error::from(ErrorKind::FileTooLarge))
}
