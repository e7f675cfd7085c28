// What the program mend tells of a line of a listing: each edit, with carets under their places, or the refusal.
#![tactic(auto)]

ghost use Rattle.std.specs.Prelude.{◌≡◌};
ghost use Rattle.figures.specs.Rooms.{Puts, Fills};
ghost use Rattle.errata.specs.Errata.{kind_text, edit_text, edits_text, carets_from, shown_text, mended_text, by_edits, Tells, tally_text};
ghost use Rattle.errata.specs.Keeping.{mark_text};

use blocks::answers::refusal_tells;
use blocks::judging::answer_of;
use figures::rooms::Room;
use figures::run_before;
use listings::edits::{BLANK, DOT, Edit};
use listings::mending::mend_unjudged;
use reports::piece::{TEXT_MOST, put_field, put_refusal};
use units::kinds::Family;

// Room enough for what is told of any line.
pub const ENOUGH: usize = 3_800;

// What became of a line: it was refused, it reads as it is, or it was mended.
#[derive(Clone, Copy, PartialEq, Eq)]
pub enum Fate {
    Refused,
    Unchanged,
    Mended,
}

// How many bytes of block were put, and how many of what is told.
#[derive(Clone, Copy, PartialEq, Eq)]
pub struct Told {
    pub bytes: usize,
    pub count: usize,
    pub fate: Fate,
}

fn added(kind: u32) -> &'static [u8]
    ensures { result.now ≡ kind_text kind }
{
    match kind {
        DOT => b"dot",
        BLANK => b"blank",
        _ => b"CR",
    }
}

// Puts one edit's line.
fn put_edit(room: &mut Room, number: u64, e: Edit)
    ensures { Fills room.old (edit_text number e) room.new }
{
    put_field(room, b"line=", number);
    put_field(room, b" place=", u64::from(e.place));
    room.put(b" added=");
    room.put(added(e.kind));
    room.put(b"\n");
}

// Puts the lines of the edits.
fn put_edits(room: &mut Room, number: u64, edits: &[Edit])
    ensures { Fills room.old (edits_text number edits.now) room.new }
{
    room.put(b""); // past the end, the place is the end
    for e in edits {
        put_edit(room, number, *e);
    }
}

// Puts blanks from one column to another, and a caret; nothing where that column is done.
fn put_mark(room: &mut Room, done: usize, place: usize)
    ensures { Fills room.old (mark_text done place) room.new }
{
    room.put(b""); // past the end, the place is the end
    if place < done {
        return;
    }
    for _ in done..place {
        room.put(b" ");
    }
    room.put(b"^");
}

// Puts a caret under the place of each edit.
fn put_carets(room: &mut Room, edits: &[Edit])
    ensures { Fills room.old (carets_from 0 edits.now) room.new }
{
    room.put(b""); // past the end, the place is the end
    let mut done = 0;
    for e in edits {
        let place = e.place as usize;
        put_mark(room, done, place);
        done = done.max(place + 1);
    }
    room.put(b"\n");
}

// Puts a line's text as it is shown, and LF.
fn put_text(room: &mut Room, line: &[u8])
    ensures { Fills room.old (shown_text line.now) room.new }
{
    let text = &line[..run_before(line, b'\r').min(TEXT_MOST)];
    room.put_shown(&text[..run_before(text, b'\n')]);
    room.put(b"\n");
}

// Puts what is told of a line that was mended by the edits; nothing where it needed none.
fn put_mended(room: &mut Room, number: u64, line: &[u8], edits: &[Edit])
    ensures { Fills room.old (mended_text number line.now edits.now) room.new }
{
    if edits.is_empty() {
        room.put(b""); // past the end, the place is the end
        return;
    }
    put_edits(room, number, edits);
    put_text(room, line);
    put_carets(room, edits);
}

fn fate_by(edits: &[Edit]) -> Fate
    ensures { result ≡ by_edits edits.now }
{
    if edits.is_empty() {
        Fate::Unchanged
    } else {
        Fate::Mended
    }
}

// Mends a line of the family's listing, by its number counted from 1: puts its block in one room, nothing where it is refused, and what is told of it in another.
pub fn tell(family: Family, number: u64, line: &[u8], out: &mut [u8], text: &mut [u8]) -> Told
    ensures { Tells family number line.now out.old text.old result out.new text.new }
{
    let mended = mend_unjudged(line);
    let bytes = mended.bytes();
    let mut told = Room::new(text);
    match answer_of(bytes, family) {
        Err(refusal) => {
            put_field(&mut told, b"line=", number);
            put_refusal(&mut told, refusal);
            put_text(&mut told, bytes);
            told.put_caret(refusal_tells(refusal));
            Told {
                bytes: 0,
                count: told.at,
                fate: Fate::Refused,
            }
        }
        Ok(_) => {
            let edits = mended.edits();
            let mut block = Room::new(out);
            block.put(bytes);
            put_mended(&mut told, number, line, edits);
            Told {
                bytes: block.at,
                count: told.at,
                fate: fate_by(edits),
            }
        }
    }
}

// Puts the last line: how many lines there were, and how many of them read as they were, were mended and were refused.
pub fn tally(lines: u64, unchanged: u64, mended: u64, refused: u64, room: &mut [u8]) -> usize
    ensures { Puts room.old 0 (tally_text lines unchanged mended refused) result room.new }
{
    let mut told = Room::new(room);
    put_field(&mut told, b"lines=", lines);
    put_field(&mut told, b" unchanged=", unchanged);
    put_field(&mut told, b" mended=", mended);
    put_field(&mut told, b" refused=", refused);
    told.put(b"\n");
    told.at
}
