// The program moves: reads a sheet of one form on standard input and writes it in the other on standard output; `move` takes the first form to the second, and
// `back` the second to the first. What is refused, and where, goes to standard error, with the line that is in the way.
#![tactic(auto)]

ghost use Rattle.std.specs.Prelude.{◌≤◌, length};

use figures::rooms::Room;
use figures::run_before;
use sheets::answers::SheetRefusal;
use sheets::forms::{Form, SHEET_MOST};
use sheets::moving::move_from;
use std::io::{Read, Write};
use streams::arguments::{argument, count};
use streams::fill;
use streams::telling::{put, put_number};

// The most that is shown of a line.
const LINE: usize = 80;

const USAGE: &[u8] =
    b"usage: move < SHEET > FILE\n       back < SHEET > FILE\ndocs/REFUSALS.md says what the number of each refusal means.\n";

// Counts the lines that end in some bytes.
fn lines_in(s: &[u8]) -> usize
    ensures in_bounds { result ≤ length s.now }
{
    s.iter().filter(|b| **b == b'\n').count()
}

// Shows the first line of some bytes, as much of it as a sheet's has; where there are none, nothing.
fn put_line<E: Write>(err: &mut E, rest: &[u8]) {
    if rest.is_empty() {
        return;
    }
    let n = run_before(rest, b'\n');
    let mut bytes = [0u8; LINE];
    let mut room = Room::new(&mut bytes);
    room.put_shown(&rest[..n]);
    let end = room.at;
    if let Some(shown) = bytes.get(..end) {
        put(err, shown);
        put(err, b"\n");
    }
}

// Tells what is refused, and where.
fn refused<E: Write>(err: &mut E, word: &[u8], refusal: SheetRefusal, sheet: &[u8]) {
    let place = refusal.tells();
    put(err, word);
    put_number(err, b": refused=", refusal.number());
    put_number(err, b" place=", place as u64);
    if sheet.len() < place {
        put(err, b"\n");
        return;
    }
    let line = lines_in(&sheet[..place]) + 1;
    put_number(err, b" line=", line as u64);
    put(err, b"\n");
    put_line(err, &sheet[place..]);
}

// Moves the sheet on standard input from the form; a byte more than the longest sheet has shows that an input is none.
fn run<R: Read, W: Write, E: Write>(
    input: &mut R,
    output: &mut W,
    err: &mut E,
    word: &[u8],
    form: Form,
) {
    let mut sheet = [0u8; SHEET_MOST + 1];
    let (n, _) = fill(input, &mut sheet);
    let mut moved = [0u8; SHEET_MOST];
    match move_from(form, &sheet[..n], &mut moved) {
        Ok(m) if m <= SHEET_MOST => put(output, &moved[..m]),
        Ok(_) => {}
        Err(refusal) => refused(err, word, refusal, &sheet[..n]),
    }
}

// What can't be written is passed over; where a read fails, what came before it is taken for the sheet.
fn main(rt: HostRuntime) {
    let mut room = [0; 4];
    let word = argument(&rt, 1, &mut room).unwrap_or(b"");
    let asked = match word {
        b"move" => Some(Form::One),
        b"back" => Some(Form::Two),
        _ => None,
    };
    match asked {
        Some(form) if count(&rt) == 2 => run(
            &mut rt.stdin(),
            &mut rt.stdout(),
            &mut rt.stderr(),
            word,
            form,
        ),
        _ => put(&mut rt.stderr(), USAGE),
    }
}
