// The reply to a line: its length, and its bytes laid down in the room.
ghost use Rattle.std.specs.Prelude.{◌≡◌, ◌++◌, ◌+◌, ◌≤◌, length, Ok};
ghost use Rattle.figures.specs.Bytes.{laid};
ghost use Rattle.figures.specs.Text.{end_bytes, star_bytes};
ghost use Rattle.instrument.specs.Values.{word_in};
ghost use Rattle.state.specs.Image.{state_in};
ghost use Rattle.commands.specs.Shapes.{groups_in};
ghost use Rattle.lines.specs.Verdicts.{accepted, conf_verdict};
ghost use Rattle.lines.specs.Replies.{ends_lf, answers_wide, reply_end, warning, conf_body, body_of};
ghost use Rattle.lines.specs.Keeping.{groups_words, groups_body, GetFits, get_n, Accepts};

use crate::images::Image;
use crate::verdicts::{place_named, setting_of};
use commands::shapes::Order;
use instrument::settings::Series;
use instrument::tps100::END_100;
use instrument::tps300::{END_300, WIDE_300};
use instrument::values::{get_word, widen};

// The longest reply: a `*`, as many wide words as a GET of 100 characters asks for, and CR LF.
pub const REPLY_MOST: usize = 1 + 19 * 24 + 2;

// Tells whether a reply ends in CR LF: setting 73, which every reply asks for and which is therefore taken by its place.
pub(crate) fn ends_lf(image: Image) -> bool
    ensures { result ≡ ends_lf (state_in image.entry.bytes.now) }
{
    match image.series {
        Series::Tps100 => image.parameter(END_100) != 0,
        Series::Tps300 => image.parameter(END_300) != 0,
    }
}

// Tells whether GET answers in wide words: setting 137, where the series has it.
fn is_wide(image: Image) -> bool
    ensures { result ≡ answers_wide (state_in image.entry.bytes.now) }
{
    match image.series {
        Series::Tps100 => false,
        Series::Tps300 => image.parameter(WIDE_300) != 0,
    }
}

// Lays CR or CR LF.
fn put_end(lf: bool, room: &mut [u8])
    requires { length (end_bytes lf) ≤ length room.old }
    ensures { room.new ≡ laid (end_bytes lf) room.old }
{
    room[0] = b'\r';
    if lf {
        room[1] = b'\n';
    }
}

// Lays a text, and answers its length.
fn put_text(text: &[u8], room: &mut [u8]) -> usize
    ensures { (result ≡ length text.now) × (room.new ≡ laid text.now room.old) }
{
    figures::lay(text, room);
    text.len()
}

// Lays the `*` of wide words, and answers its length.
fn put_star(wide: bool, room: &mut [u8]) -> usize
    ensures { (result ≡ length (star_bytes wide)) × (room.new ≡ laid (star_bytes wide) room.old) }
{
    if wide { put_text(b"*", room) } else { 0 }
}

// Lays a word in its width, and answers its length.
fn put_word(wide: bool, word: [u8; 16], room: &mut [u8]) -> usize
    ensures { (result ≡ length (word_in wide word)) × (room.new ≡ laid (word_in wide word) room.old) }
{
    if wide {
        put_text(&widen(word), room)
    } else {
        put_text(&word, room)
    }
}

// Lays the words that GET answers, each into the part of the room that starts after the words before it, and answers how long they are.
fn put_get(wide: bool, image: Image, groups: &[u8], room: &mut [u8]) -> usize
    requires { GetFits (state_in image.bytes.now).values groups.now (groups_words wide (state_in image.bytes.now).values (groups_in groups.now) groups.now) room.old }
    ensures { (result ≡ length (groups_words wide (state_in image.entry.bytes.now).values (groups_in groups.now) groups.now))
        × (room.new ≡ laid (groups_words wide (state_in image.entry.bytes.now).values (groups_in groups.now) groups.now) room.old) }
{
    let mut at = 0;
    for group in groups.chunks_exact(5) {
        let Some(place) = place_named(group[3], group[4]) else {
            return at;
        };
        let word = get_word(place, image.value(place));
        let n = put_word(wide, word, &mut room[at..]);
        at += n;
    }
    at
}

// Lays what GET answers, the words after a `*` where they are wide, and answers how long that is.
fn put_words(wide: bool, image: Image, groups: &[u8], room: &mut [u8]) -> usize
    requires { GetFits (state_in image.bytes.now).values groups.now (groups_body wide (state_in image.bytes.now).values (groups_in groups.now) groups.now) room.old }
    ensures { (result ≡ length (groups_body wide (state_in image.entry.bytes.now).values (groups_in groups.now) groups.now))
        × (room.new ≡ laid (groups_body wide (state_in image.entry.bytes.now).values (groups_in groups.now) groups.now) room.old) }
{
    let at = put_star(wide, room);
    at + put_get(wide, image, groups, &mut room[at..])
}

// Makes the nine characters that CONF answers.
fn conf_body(image: Image, number: u64) -> [u8; 9]
    requires { conf_verdict image.series number ≡ accepted }
    ensures { result ≡ conf_body image.entry.series (state_in image.entry.bytes.now).settings number }
{
    let mut body = [b'/'; 9];
    if let Some(place) = setting_of(image.series, number) {
        figures::put_number(number, &mut body[..4]);
        figures::put_number(u64::from(image.parameter(place)), &mut body[5..]);
    }
    body
}

// Tells how long the words of so many indexes are.
fn get_length(wide: bool, indexes: usize) -> usize
    requires { indexes ≤ 100 }
    ensures { result ≡ get_n wide indexes }
{
    if wide { 1 + indexes * 24 } else { indexes * 16 }
}

// Gives the length of the reply to an accepted line, without its end.
pub(crate) fn body_length(image: Image, text: &[u8], order: Order) -> usize
    requires { Accepts (state_in image.bytes.now) text.now order }
    ensures { result ≡ length (body_of (state_in image.entry.bytes.now) text.now (Ok order)) }
{
    match order {
        Order::Conf(_) => 9,
        Order::Get => get_length(is_wide(image), (text.len() - 5) / 5),
        Order::Set(_, _) | Order::Put | Order::Undo | Order::Keep => 1,
    }
}

// Lays the reply to an accepted line without its end, and answers its length.
fn put_body(image: Image, text: &[u8], order: Order, room: &mut [u8]) -> usize
    requires { Accepts (state_in image.bytes.now) text.now order × (length (body_of (state_in image.bytes.now) text.now (Ok order)) ≤ length room.old) }
    ensures { (result ≡ length (body_of (state_in image.entry.bytes.now) text.now (Ok order))) × (room.new ≡ laid (body_of (state_in image.entry.bytes.now) text.now (Ok order)) room.old) }
{
    match order {
        Order::Conf(number) => put_text(&conf_body(image, number), room),
        Order::Get => put_words(is_wide(image), image, &text[5..], room),
        Order::Set(_, _) | Order::Put | Order::Undo | Order::Keep => put_text(b"?", room),
    }
}

// Lays the reply to an accepted line.
#[tactic(auto, using(crate::proofs::Replying::laid_then))]
pub(crate) fn put_reply(image: Image, text: &[u8], order: Order, room: &mut [u8])
    requires { Accepts (state_in image.bytes.now) text.now order × (length (body_of (state_in image.bytes.now) text.now (Ok order)) + length (reply_end (state_in image.bytes.now)) ≤ length room.old) }
    ensures { room.new ≡ laid (body_of (state_in image.entry.bytes.now) text.now (Ok order) ++ reply_end (state_in image.entry.bytes.now)) room.old }
{
    let n = put_body(image, text, order, room);
    put_end(ends_lf(image), &mut room[n..]);
}

// Lays the reply to a refused line.
pub(crate) fn put_wrong(image: Image, room: &mut [u8])
    requires { 5 + length (reply_end (state_in image.bytes.now)) ≤ length room.old }
    ensures { room.new ≡ laid (warning ++ reply_end (state_in image.entry.bytes.now)) room.old }
{
    let n = put_text(b"@W127", room);
    put_end(ends_lf(image), &mut room[n..]);
}
