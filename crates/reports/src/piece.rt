// The lines that are printed of a piece of a file.
ghost use Rattle.std.specs.Prelude.{◌≡◌, ◌≤◌, length, drop, Ok};
ghost use Rattle.words.specs.Reading.{word_of, word_in};
ghost use Rattle.blocks.specs.Judging.{judged};
ghost use Rattle.figures.specs.Rooms.{Puts, Fills};
ghost use Rattle.reports.specs.Piece.{field_text, line_text, name_text, word_text, words_text, head_text, end_text, form_text, reading_text};
ghost use Rattle.reports.specs.Piece.{refusal_text, where_text, answer_text, is_read, tally_text, Reports};

use blocks::answers::{Reading, Refusal, refusal_number, refusal_tells};
use blocks::judging::{answer_of, start_of};
use figures::rooms::Room;
use figures::run_before;
use measures::{put_index, put_value};
use units::kinds::Family;
use words::reading::{read_word, width_of};
use words::records::{Word, blank_word};

// Room enough for the report of any piece.
pub const ENOUGH: usize = 5_280;

// The most that is shown of a refused piece: the bytes that the longest block has before its CR, and the one in the CR's place.
pub const TEXT_MOST: usize = 770;

// How many bytes of a report were put, and whether the block was accepted.
#[derive(Clone, Copy, PartialEq, Eq)]
pub struct Reported {
    pub count: usize,
    pub accepted: bool,
}

// Puts a key, and a number in its fewest digits.
pub fn put_field(room: &mut Room, key: &[u8], n: u64)
    ensures { Fills room.old (field_text key.now n) room.new }
{
    room.put(key);
    room.put_decimal(n);
}

// Puts two fields, and the line's end.
fn put_line(room: &mut Room, key: &[u8], n: u64, other: &[u8], m: u64)
    ensures { Fills room.old (line_text key.now n other.now m) room.new }
{
    put_field(room, key, n);
    put_field(room, other, m);
    room.put(b"\n");
}

// Puts the start of a word's line, up to its value.
fn put_name(room: &mut Room, number: usize, index: u16, info: [u8; 4])
    ensures { Fills room.old (name_text number index info) room.new }
{
    put_field(room, b"word=", number as u64);
    room.put(b" index=");
    put_index(room, index, info);
}

// Puts one word's line.
fn put_word(room: &mut Room, number: usize, w: Word, family: Family, wide: bool)
    ensures { Fills room.old (word_text family number wide w) room.new }
{
    put_name(room, number, w.index, w.info);
    put_value(room, w, family, wide);
    room.put(b"\n");
}

// Puts the line of the word that stands at a place of the piece, of which each word is right.
fn put_word_at(
    room: &mut Room,
    number: usize,
    piece: &[u8],
    place: usize,
    family: Family,
    wide: bool,
)
    requires { place ≤ length piece.now }
    ensures { Fills room.old (word_text family number wide (word_in (word_of family wide (drop place piece.now)))) room.new }
{
    let word = read_word(&piece[place..], family, wide).unwrap_or(blank_word());
    put_word(room, number, word, family, wide);
}

// Puts the lines of the words of a piece that was read so, each from where it stands.
fn put_words(room: &mut Room, piece: &[u8], reading: Reading, family: Family)
    requires { (judged family piece.now 32).answer ≡ Ok reading }
    ensures { Fills room.old (words_text family 1 reading.wide (judged family piece.now 32).words) room.new }
{
    room.put(b""); // past the end, the place is the end
    let wide = reading.wide;
    let start = start_of(wide);
    let size = width_of(wide) + 8;
    for i in 0..reading.words {
        put_word_at(room, i + 1, piece, start + i * size, family, wide);
    }
}

fn put_head(room: &mut Room, number: u64, place: u64)
    ensures { Fills room.old (head_text number place) room.new }
{
    put_field(room, b"block=", number);
    put_field(room, b" at=", place);
}

// Gives the name of a block's end, with its key.
fn end_text(crlf: bool) -> &'static [u8]
    ensures { result.now ≡ end_text crlf }
{
    if crlf { b" end=CRLF" } else { b" end=CR" }
}

// Puts the form of a block: its width and its end.
fn put_form(room: &mut Room, wide: bool, crlf: bool)
    ensures { Fills room.old (form_text wide crlf) room.new }
{
    put_field(room, b" width=", width_of(wide) as u64);
    room.put(end_text(crlf));
}

fn put_reading(room: &mut Room, reading: Reading)
    ensures { Fills room.old (reading_text reading) room.new }
{
    put_form(room, reading.wide, reading.crlf);
    put_line(
        room,
        b" words=",
        reading.words as u64,
        b" bytes=",
        reading.used as u64,
    );
}

// Puts a refusal's number and what it tells.
pub fn put_refusal(room: &mut Room, refusal: Refusal)
    ensures { Fills room.old (refusal_text refusal) room.new }
{
    put_line(
        room,
        b" refused=",
        refusal_number(refusal),
        b" place=",
        refusal_tells(refusal) as u64,
    );
}

// Puts the text of a refused piece, and a caret under the byte.
fn put_where(room: &mut Room, piece: &[u8], place: usize)
    ensures { Fills room.old (where_text piece.now place) room.new }
{
    let n = run_before(piece, b'\r').min(TEXT_MOST);
    room.put_shown(&piece[..n]);
    room.put(b"\n");
    room.put_caret(place);
}

// Puts what comes after a report's head, and tells whether the block was accepted.
fn put_answer(room: &mut Room, piece: &[u8], family: Family) -> bool
    ensures text { Fills room.old (answer_text family piece.now (judged family piece.now 32).answer (judged family piece.now 32).words) room.new }
    ensures accepted { result ≡ is_read (judged family piece.now 32).answer }
{
    match answer_of(piece, family) {
        Ok(reading) => {
            put_reading(room, reading);
            put_words(room, piece, reading, family);
            true
        }
        Err(refusal) => {
            put_refusal(room, refusal);
            put_where(room, piece, refusal_tells(refusal));
            false
        }
    }
}

// Puts the report of a piece of the family's file: its number among the pieces, counted from 1, and the byte of the file where it starts are given.
pub fn report(family: Family, number: u64, place: u64, piece: &[u8], room: &mut [u8]) -> Reported
    ensures { Reports family number place piece.now room.old result room.new }
{
    let mut out = Room::new(room);
    put_head(&mut out, number, place);
    let accepted = put_answer(&mut out, piece, family);
    Reported {
        count: out.at,
        accepted,
    }
}

// Puts the last line: how many blocks there were, and how many of them were accepted and refused.
pub fn tally(blocks: u64, accepted: u64, refused: u64, room: &mut [u8]) -> usize
    ensures { Puts room.old 0 (tally_text blocks accepted refused) result room.new }
{
    let mut out = Room::new(room);
    put_field(&mut out, b"blocks=", blocks);
    put_line(&mut out, b" accepted=", accepted, b" refused=", refused);
    out.at
}
