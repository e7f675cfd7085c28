// The program standin: plays the instrument on standard input and output, from a series' factory state or from a sheet file, of the series that it names.
// With --why it says on standard error why each refused line was refused. With --keep FILE it goes on from that sheet file, where there is one, and has the
// state in it, undo list and all, before each reply goes out.
#![tactic(auto)]

mod asking;
mod keeping;
mod paths;

ghost use Rattle.std.specs.Prelude.{OnOk};
ghost use Rattle.std.specs.Io.KnownBytes.{Appends};
ghost use Rattle.streams.specs.Written.{WritesStart};

use asking::ask;
use instrument::settings::Series;
use keeping::keep;
use lines::replies::REPLY_MOST;
use lines::verdicts::Verdict;
use paths::{PATH, failed, no_file, path_text, too_long};
use port::why::{ENOUGH, put_why};
use port::{Port, hear, quiet};
use sheets::answers::SheetRefusal;
use sheets::forms::{Form, SHEET_MOST, form_in, series_named};
use sheets::loading::load;
use sheets::writing::write;
use state::image::{IMAGE_100, IMAGE_300};
use state::laying::put_factory;
use std::env::Env;
use std::fs::{File, Files};
use std::io;
use std::io::{Error, ErrorKind, Read, Write};
use streams::arguments::argument;
use streams::telling::{put, put_number};
use streams::{fill, write_all};

const USAGE: &[u8] =
    b"usage: standin [--why] [--keep FILE] [TPS100 | TPS300 | SHEET]\ndocs/REFUSALS.md says what the number of each refusal means.\n";

// Says why the line that the port had kept was refused, and nothing of one that was accepted.
fn say_why<E: Write>(err: &mut E, number: u64, port: Port, verdict: Verdict) {
    let mut room = [0u8; ENOUGH];
    let n = put_why(&mut room, number, port, verdict);
    put(err, &room[..n]);
}

// Sends a reply at once.
fn reply<W: Write>(output: &mut W, bytes: &[u8]) -> io::Result<()>
    ensures whole { OnOk result (Appends (W.contents output.old) (W.contents output.new) bytes.now) }
    ensures start { WritesStart (W.contents output.old) (W.contents output.new) bytes.now }
{
    write_all(output, bytes)?;
    output.flush()
}

// How far is played: the port after a byte, and how many lines were run.
#[derive(Clone, Copy)]
struct Played {
    port: Port,
    lines: u64,
}

// A sheet that was read, and the path that it was read from.
#[derive(Clone, Copy)]
struct Sheet<'p, 's> {
    path: &'p [u8],
    text: &'s [u8],
}

// What is started from: the series' factory state, or the state of a sheet.
#[derive(Clone, Copy)]
struct Start<'p, 's> {
    series: Series,
    sheet: Option<Sheet<'p, 's>>,
}

// Why a file gives nothing to start from: it isn't there, or what else is wrong was told.
#[derive(Clone, Copy)]
enum NoStart {
    Missing,
    Told,
}

fn fresh<'p, 's>(series: Series) -> Start<'p, 's> {
    Start {
        series,
        sheet: None,
    }
}

// Tells which series a name asks for.
fn series_of(name: &[u8]) -> Option<Series> {
    match name {
        b"TPS100" => Some(Series::Tps100),
        b"TPS300" => Some(Series::Tps300),
        _ => None,
    }
}

// Tells whether the name asks for the other series.
fn other(series: Series, name: &[u8]) -> bool {
    series_of(name).is_some_and(|asked| asked != series)
}

fn open<F: Files>(files: &F, path: &[u8]) -> io::Result<F::File> {
    File::open(files, path_text(path)?)
}

// The files, the input and the outputs that are played on, whether reasons are told, and the file that the state is kept in, where one is.
#[derive(Drop)]
struct Standin<'a, F, R, W, E> {
    files: &'a F,
    input: &'a mut R,
    output: &'a mut W,
    err: &'a mut E,
    why: bool,
    keep: Option<&'a [u8]>,
}

impl<'a, F: Files, R: Read, W: Write, E: Write> Standin<'a, F, R, W, E> {
    // Tells whether the reply to a line may go out: where a file is kept, once that has what the line left.
    fn kept(&mut self, image: &[u8], last: &mut [u8; SHEET_MOST], verdict: Verdict) -> bool {
        match self.keep {
            Some(path) if verdict.is_ok() => keep(self.files, self.err, path, image, last),
            _ => true,
        }
    }

    // Waits for one byte, and replies at once where it ends a line. None ends it: the input has ended, or nothing can be written any more.
    fn turn(
        &mut self,
        image: &mut [u8],
        played: Played,
        last: &mut [u8; SHEET_MOST],
    ) -> Option<Played> {
        let mut byte = [0u8; 1];
        let got = self.input.read(&mut byte).unwrap_or(0);
        if got == 0 {
            return None;
        }
        let mut room = [0u8; REPLY_MOST];
        let turn = hear(image, played.port, byte[0], &mut room);
        let next = Played {
            port: turn.port,
            ..played
        };
        if byte[0] != b'\r' {
            return Some(next);
        }
        let verdict = turn.told.verdict;
        if !self.kept(image, last, verdict) {
            return None;
        }
        let sent = reply(self.output, &room[..turn.told.count]);
        let lines = played.lines.saturating_add(1);
        if self.why {
            say_why(self.err, lines, played.port, verdict);
        }
        sent.ok()?;
        Some(Played { lines, ..next })
    }

    // Plays until the input ends. A proved loop has to end, so this one counts its turns up to a number that no run comes to.
    fn play(&mut self, image: &mut [u8]) {
        // The sheet of the state that is started from: only what a line alters goes into the file.
        let mut last = [0u8; SHEET_MOST];
        let _ = write(Form::Two, image, &mut last);
        let mut played = Played {
            port: quiet(),
            lines: 0,
        };
        for _ in 0..u64::MAX {
            match self.turn(image, played, &mut last) {
                Some(next) => played = next,
                None => return,
            }
        }
    }

    fn refused(&mut self, path: &[u8], refusal: SheetRefusal) {
        put(self.err, b"standin: ");
        put(self.err, path);
        put_number(self.err, b" refused=", refusal.number());
        put_number(self.err, b" place=", refusal.tells() as u64);
        put(self.err, b"\n");
    }

    // Reads a sheet file; of a longer file a byte more than the longest sheet has shows that it is none.
    fn read_file<'p, 's>(
        &mut self,
        path: &'p [u8],
        room: &'s mut [u8],
    ) -> Result<Start<'p, 's>, NoStart> {
        let mut file = match open(self.files, path) {
            Ok(file) => file,
            Err(error) => {
                if error.kind() == ErrorKind::NotFound {
                    return Err(NoStart::Missing);
                }
                failed(self.err, path, error);
                return Err(NoStart::Told);
            }
        };
        let (n, _) = fill(&mut file, room);
        // Nothing came: the file is empty, or no file, as a folder.
        if n == 0
            && let Err(error) = file.read(&mut [0u8; 1])
        {
            failed(self.err, path, error);
            return Err(NoStart::Told);
        }
        let series = series_named(form_in(room), room);
        let text = &room[..n];
        Ok(Start {
            series,
            sheet: Some(Sheet { path, text }),
        })
    }

    // Starts from what the name says, a series or a sheet file, and without one from a TPS100's factory state.
    fn from_name<'p, 's>(
        &mut self,
        name: Option<&'p [u8]>,
        room: &'s mut [u8],
    ) -> Option<Start<'p, 's>> {
        let Some(name) = name else {
            return Some(fresh(Series::Tps100));
        };
        if let Some(series) = series_of(name) {
            return Some(fresh(series));
        }
        match self.read_file(name, room) {
            Ok(start) => Some(start),
            Err(NoStart::Missing) => {
                failed(self.err, name, no_file());
                None
            }
            Err(NoStart::Told) => None,
        }
    }

    // Starts from the file that the state is kept in, where it is there and no other series is asked for.
    fn from_kept<'p, 's>(
        &mut self,
        path: &'p [u8],
        name: Option<&[u8]>,
        room: &'s mut [u8],
    ) -> Result<Start<'p, 's>, NoStart> {
        let start = self.read_file(path, room)?;
        match name {
            Some(name) if other(start.series, name) => {
                put(self.err, b"standin: ");
                put(self.err, path);
                put(self.err, b" is no sheet of a ");
                put(self.err, name);
                put(self.err, b"\n");
                Err(NoStart::Told)
            }
            _ => Ok(start),
        }
    }

    // Lays the series' factory state down and loads the sheet, where there is one, and plays from there.
    fn play_on(&mut self, image: &mut [u8], start: Start) {
        put_factory(start.series, image);
        if let Some(sheet) = start.sheet
            && let Err(refusal) = load(image, sheet.text)
        {
            self.refused(sheet.path, refusal);
            return;
        }
        self.play(image);
    }

    // Plays from a start, on an image of its series.
    fn run(&mut self, start: Start) {
        match start.series {
            Series::Tps100 => self.play_on(&mut [0; IMAGE_100], start),
            Series::Tps300 => self.play_on(&mut [0; IMAGE_300], start),
        }
    }

    // Plays from what the name says.
    fn begin_anew(&mut self, name: Option<&[u8]>) {
        let mut room = [0u8; SHEET_MOST + 1];
        if let Some(start) = self.from_name(name, &mut room) {
            self.run(start);
        }
    }

    // Plays from the file that the state is kept in, or, where there is none yet, from what the name says.
    fn begin(&mut self, name: Option<&[u8]>) {
        let Some(path) = self.keep else {
            self.begin_anew(name);
            return;
        };
        let mut room = [0u8; SHEET_MOST + 1];
        match self.from_kept(path, name, &mut room) {
            Ok(start) => self.run(start),
            Err(NoStart::Missing) => self.begin_anew(name),
            Err(NoStart::Told) => {}
        }
    }
}

// Gives the path that an argument is, where one is asked for; one that is longer than any path is an error.
fn path_in<'a, V: Env>(
    env: &V,
    i: Option<usize>,
    room: &'a mut [u8],
) -> Result<Option<&'a [u8]>, Error> {
    let Some(i) = i else {
        return Ok(None);
    };
    argument(env, i, room).map(Some).ok_or_else(too_long)
}

fn main(rt: HostRuntime) {
    let mut err = rt.stderr();
    let Some(asked) = ask(&rt) else {
        put(&mut err, USAGE);
        return;
    };
    let mut keep_room = [0u8; PATH];
    let keep = match path_in(&rt, asked.keep, &mut keep_room) {
        Ok(keep) => keep,
        Err(error) => {
            failed(&mut err, b"FILE", error);
            return;
        }
    };
    let mut name_room = [0u8; PATH];
    let name = match path_in(&rt, asked.name, &mut name_room) {
        Ok(name) => name,
        Err(error) => {
            failed(&mut err, b"SHEET", error);
            return;
        }
    };
    // An empty name is no file, and would keep nothing.
    if keep.is_some_and(|path| path.is_empty()) {
        put(&mut err, USAGE);
        return;
    }
    let mut standin = Standin {
        files: &rt,
        input: &mut rt.stdin(),
        output: &mut rt.stdout(),
        err: &mut err,
        why: asked.why,
        keep,
    };
    standin.begin(name);
}
