// The walk through a block of a listing, from left to right: the mended bytes are put into a room, and the edits kept by value.
ghost use Rattle.std.specs.Prelude.{◌≡◌, true, ◌≤◌, length};
ghost use Rattle.figures.specs.Rooms.{Fills};
ghost use Rattle.blocks.specs.Judging.{is_at};
ghost use Rattle.listings.specs.Mending.{lacks_dot, is_end, blank_mended, end_mended};
ghost use Rattle.listings.specs.Keeping.{dotted, Walks};

use crate::edits::{BLANK, CR, DOT, Edits};
use figures::rooms::Room;
use words::reading::width_of;

// The most words that a block has.
const WORDS: usize = 32;

// How many bytes were put, and the edits.
#[derive(Clone, Copy)]
pub struct Walked {
    pub bytes: usize,
    pub edits: Edits,
}

// Tells whether a word is next that has three dots for four.
fn lacks_dot(rest: &[u8]) -> bool
    ensures { result ≡ lacks_dot rest.now }
{
    matches!(rest, [b'4', b'2'..=b'9', b'.', b'.', b'.', b'+', ..])
}

// Tells whether the byte is next.
fn is_at(rest: &[u8], b: u8) -> bool
    ensures { result ≡ is_at b rest.now }
{
    rest.first() == Some(&b)
}

// Tells whether a CR or an LF is next.
fn is_end(rest: &[u8]) -> bool
    ensures { result ≡ is_end rest.now }
{
    matches!(rest, [b'\r' | b'\n', ..])
}

// Puts a word, with a dot after its first five bytes where it lacks one.
fn put_word(word: &[u8], lacks: bool, out: &mut Room)
    requires { lacks ≡ true → 5 ≤ length word.now }
    ensures { Fills out.old (dotted lacks word.now) out.new }
{
    if lacks {
        let (head, tail) = word.split_at(5);
        out.put(head);
        out.put(b".");
        out.put(tail);
        return;
    }
    out.put(word);
}

// Gives what belongs in a blank's place: the blank before a CR or an LF, otherwise the byte that stands there.
fn blank(rest: &[u8]) -> &[u8]
    ensures { result.now ≡ (blank_mended 0 rest.now).bytes }
{
    if is_end(rest) {
        return b" ";
    }
    &rest[..rest.len().min(1)]
}

// Gives what ends a block, if anything does.
fn ending(rest: &[u8]) -> &'static [u8]
    ensures { result.now ≡ (end_mended 0 rest.now).bytes }
{
    match rest {
        [b'\r', b'\n', ..] => b"\r\n",
        [b'\r', ..] => b"\r",
        [b'\n', ..] => b"\r\n",
        _ => b"",
    }
}

// Walks through the block at the start of s. Whether an edit is due decides no branch in the loop.
pub(crate) fn walk(s: &[u8], room: &mut [u8]) -> Walked
    requires { 771 ≤ length room.old }
    ensures { Walks s.now room.old result room.new }
{
    let wide = is_at(s, b'*');
    let width = width_of(wide);
    let mut out = Room::new(room);
    let mut edits = Edits::none();
    let mut from = usize::from(wide);
    out.put(&s[..from]);
    for _ in 0..WORDS {
        let rest = &s[from..];
        if is_end(rest) {
            break;
        }
        let lacks = lacks_dot(rest);
        let to = s.len().min(from + width + 7 - usize::from(lacks));
        put_word(&s[from..to], lacks, &mut out);
        edits.add_if(lacks, from + 5, DOT);
        let stripped = is_end(&s[to..]);
        out.put(blank(&s[to..]));
        edits.add_if(stripped, to, BLANK);
        from = s.len().min(to + 1 - usize::from(stripped));
    }
    let rest = &s[from..];
    out.put(ending(rest));
    edits.add_if(is_at(rest, b'\n'), from, CR);
    Walked {
        bytes: out.at,
        edits,
    }
}
