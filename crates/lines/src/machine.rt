// One call: a line run on a state that is lent as an image, and its reply laid down.
ghost use Rattle.std.specs.Prelude.{◌≡◌, ◌++◌, length, Ok, Err};
ghost use Rattle.state.specs.Image.{state_in};
ghost use Rattle.state.specs.Keeping.{Imaged};
ghost use Rattle.commands.specs.Shapes.{text_of, order_of};
ghost use Rattle.lines.specs.Orders.{deed_of, done_of};
ghost use Rattle.lines.specs.Replies.{warning, reply_end, body_of};
ghost use Rattle.lines.specs.Machine.{outcome, run, Calls};
ghost use Rattle.lines.specs.Verdicts.{accepted, order_verdict};
ghost use Rattle.lines.specs.Keeping.{Answered, Ends, Accepts, order_if, judged};

use crate::images::Image;
use crate::orders::alter;
use crate::replies::{body_length, ends_lf, put_reply, put_wrong};
use crate::verdicts::{Refused, Verdict, order_verdict};
use commands::shapes::{Order, end_of, is_plain, order_of};
use instrument::settings::Series;
use state::image::series_in;
use state::judging::is_image;

// The verdict, and how many bytes of reply were written.
#[derive(Clone, Copy)]
pub struct Told {
    pub verdict: Verdict,
    pub count: usize,
}

fn end_length(image: Image) -> usize
    ensures { result ≡ length (reply_end (state_in image.entry.bytes.now)) }
{
    if ends_lf(image) { 2 } else { 1 }
}

// Refuses a line: it is answered `@W127` where that fits.
fn refuse(image: Image, refused: Refused, room: &mut [u8]) -> Told
    ensures { Answered (state_in image.entry.bytes.now) (outcome (Err refused) (warning ++ reply_end (state_in image.entry.bytes.now)) (state_in image.entry.bytes.now)) room.old result room.new }
{
    let count = 5 + end_length(image);
    if room.len() < count {
        return Told {
            verdict: Err(Refused::Room),
            count: 0,
        };
    }
    put_wrong(image, room);
    Told {
        verdict: Err(refused),
        count,
    }
}

// Accepts a line: where its reply fits, that is laid down and the line is run.
fn accept(series: Series, image: &mut [u8], text: &[u8], order: Order, room: &mut [u8]) -> Told
    requires { Imaged series image.old × Accepts (state_in image.old) text.now order }
    ensures { Ends (state_in image.old) (outcome accepted (body_of (state_in image.old) text.now (Ok order) ++ reply_end (state_in image.old)) (done_of (state_in image.old) (deed_of series text.now (Ok order)))) room.old result image.new room.new }
{
    let lent = Image {
        series,
        bytes: image,
    };
    let count = body_length(lent, text, order) + end_length(lent);
    if room.len() < count {
        return Told {
            verdict: Err(Refused::Room),
            count: 0,
        };
    }
    put_reply(lent, text, order, room);
    alter(series, text, order, image);
    Told {
        verdict: Ok(()),
        count,
    }
}

// Takes a line's text, which is all but its end.
fn text_of(line: &[u8]) -> &[u8]
    ensures { result.now ≡ text_of line.now }
{
    &line[..line.len() - end_of(line)]
}

// Judges a line's text: what it orders, or why it is refused.
fn ordered(image: Image, text: &[u8]) -> Result<Order, Refused>
    ensures { result ≡ order_if (order_verdict (state_in image.entry.bytes.now) text.now (order_of text.now)) (order_of text.now) }
{
    let order = order_of(text)?;
    order_verdict(image, text, order)?;
    Ok(order)
}

// Judges a line.
fn judged(image: Image, line: &[u8]) -> Result<Order, Refused>
    ensures { result ≡ judged (state_in image.entry.bytes.now) line.now }
{
    let text = text_of(line);
    if text.len() == line.len() || !is_plain(text) {
        return Err(Refused::Unended);
    }
    if 100 < text.len() {
        return Err(Refused::Long);
    }
    ordered(image, text)
}

// Runs one line on an image.
fn run_line(series: Series, image: &mut [u8], line: &[u8], room: &mut [u8]) -> Told
    requires { Imaged series image.old }
    ensures { Ends (state_in image.old) (run (state_in image.old) line.now) room.old result image.new room.new }
{
    let lent = Image {
        series,
        bytes: image,
    };
    match judged(lent, line) {
        Ok(order) => accept(series, image, text_of(line), order, room),
        Err(refused) => refuse(lent, refused, room),
    }
}

// Runs one line on a lent image. 31 and 30 leave everything as it was; any other refusal writes its reply and leaves the image.
pub fn line(image: &mut [u8], text: &[u8], room: &mut [u8]) -> Told
    ensures { Calls image.old text.now room.old result image.new room.new }
{
    if !is_image(image) {
        return Told {
            verdict: Err(Refused::NoState),
            count: 0,
        };
    }
    run_line(series_in(image), image, text, room)
}
