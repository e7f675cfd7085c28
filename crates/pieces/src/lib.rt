// An input cut into pieces: after each CR, with an LF that follows it; a last piece may have no CR.
#![tactic(auto)]

ghost use Rattle.std.specs.Prelude.{◌≡◌, ◌≤◌, length};
ghost use Rattle.pieces.specs.Pieces.{cut_of, is_joined, mark_after};

use figures::{run_before, starts};

// How far the piece that comes in has got: no CR yet, a CR as its last byte, or both its CR and its LF.
#[derive(Clone, Copy, PartialEq, Eq)]
pub enum Mark {
    Open,
    Cr,
    Whole,
}

// Gives the length of the first piece, which goes up to a CR, with an LF that follows it, or takes all.
#[tactic(auto, using(crate::proofs::Pieces::cut_all))]
pub fn cut(s: &[u8]) -> usize
    ensures { (result ≡ cut_of s.now) × (result ≤ length s.now) }
{
    let cr = run_before(s, b'\r');
    if cr == s.len() {
        return cr;
    }
    if starts(&s[cr + 1..], b"\n") {
        cr + 2
    } else {
        cr + 1
    }
}

// Tells whether the next byte still belongs to the piece.
pub fn joins(mark: Mark, b: u8) -> bool
    ensures { result ≡ is_joined mark b }
{
    match mark {
        Mark::Open => true,
        Mark::Cr => b == b'\n',
        Mark::Whole => false,
    }
}

// Tells how far the piece has got with that byte.
pub fn after(mark: Mark, b: u8) -> Mark
    ensures { result ≡ mark_after mark b }
{
    match mark {
        Mark::Open if b == b'\r' => Mark::Cr,
        Mark::Open => Mark::Open,
        Mark::Cr | Mark::Whole => Mark::Whole,
    }
}
