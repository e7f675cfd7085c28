// A listing read byte by byte: the line that comes in is kept, and mended when it has ended.
ghost use Rattle.std.specs.Prelude.{◌≡◌, ◌∷◌, [], ◌≤◌, length};
ghost use Rattle.figures.specs.Rooms.{put_at};
ghost use Rattle.files.specs.Counting.{more_of};
ghost use Rattle.mend.specs.Lines.{line_after};
ghost use Rattle.mend.specs.Turns.{started, counted, joined, tells, block_put, told_put, Feeds, finished, finished_out, finished_text, Closes};

use errata::{ENOUGH, Fate, tally};
use figures::rooms::Room;
use files::counting::more;
use pieces::{Mark, joins};
use units::kinds::Family;

// How many bytes of a line are kept. No more of one is looked at, so the line is mended as if all of it were kept.
pub const KEPT: usize = 800;

// Room for the longest block.
pub const BLOCK: usize = 771;

// Room for what is told of any line, and for the last line, of at most 120 bytes.
pub const TEXT: usize = ENOUGH + 120;

// The lines that have ended: how many read as they were, were mended and were refused.
#[derive(Clone, Copy)]
pub struct Counts {
    pub lines: u64,
    pub unchanged: u64,
    pub mended: u64,
    pub refused: u64,
}

// How far the listing is read: of the line that comes in its mark and how many of its bytes are kept, and the lines before it.
#[derive(Clone, Copy)]
pub struct Progress {
    pub mark: Mark,
    pub kept: usize,
    pub counts: Counts,
}

// How far it is read then, how many bytes of block there are, and how many of what is told.
#[derive(Clone, Copy)]
pub struct Turn {
    pub progress: Progress,
    pub bytes: usize,
    pub count: usize,
}

// How many bytes there are at the listing's end.
#[derive(Clone, Copy)]
pub struct Last {
    pub bytes: usize,
    pub count: usize,
}

pub(crate) fn start() -> Progress
    ensures { result ≡ started }
{
    Progress {
        mark: Mark::Open,
        kept: 0,
        counts: Counts {
            lines: 0,
            unchanged: 0,
            mended: 0,
            refused: 0,
        },
    }
}

// Tells how far the line has got with a byte: a CR, or an LF that follows none, ends it.
fn after(mark: Mark, b: u8) -> Mark
    ensures { result ≡ line_after mark b }
{
    match (mark, b) {
        (Mark::Open, b'\r') => Mark::Cr,
        (Mark::Open, b'\n') => Mark::Whole,
        (Mark::Open, _) => Mark::Open,
        (Mark::Cr | Mark::Whole, _) => Mark::Whole,
    }
}

// Counts a line by what became of it.
fn count(c: Counts, fate: Fate) -> Counts
    ensures { result ≡ counted more_of c fate }
{
    let all = Counts {
        lines: more(c.lines),
        ..c
    };
    match fate {
        Fate::Refused => Counts {
            refused: more(c.refused),
            ..all
        },
        Fate::Unchanged => Counts {
            unchanged: more(c.unchanged),
            ..all
        },
        Fate::Mended => Counts {
            mended: more(c.mended),
            ..all
        },
    }
}

// Takes the line's next byte.
fn join(room: &mut [u8], progress: Progress, b: u8) -> Progress
    ensures { (result ≡ joined (length room.old) progress b) × (room.new ≡ put_at room.old progress.kept (b ∷ [])) }
{
    let mut kept = Room {
        bytes: room,
        at: progress.kept,
    };
    kept.put(&[b]);
    Progress {
        mark: after(progress.mark, b),
        kept: kept.at,
        ..progress
    }
}

// Mends the line, which has ended.
fn tell(family: Family, room: &[u8], progress: Progress, out: &mut [u8], text: &mut [u8]) -> Turn
    requires { progress.kept ≤ length room.now }
    ensures { (result ≡ tells family room.now progress (length out.old) (length text.old)) × ((out.new ≡ block_put family room.now progress out.old) × (text.new ≡ told_put family room.now progress text.old)) }
{
    let number = more(progress.counts.lines);
    let told = errata::tell(family, number, &room[..progress.kept], out, text);
    Turn {
        progress: Progress {
            mark: Mark::Open,
            kept: 0,
            counts: count(progress.counts, told.fate),
        },
        bytes: told.bytes,
        count: told.count,
    }
}

// Takes the next byte of the listing. Where it starts a line, the one before is mended.
pub(crate) fn feed(
    family: Family,
    room: &mut [u8],
    progress: Progress,
    b: u8,
    out: &mut [u8],
    text: &mut [u8],
) -> Turn
    requires { progress.kept ≤ length room.old }
    ensures { Feeds family room.old progress b out.old text.old result room.new out.new text.new }
{
    if joins(progress.mark, b) {
        return Turn {
            progress: join(room, progress, b),
            bytes: 0,
            count: 0,
        };
    }
    let turn = tell(family, room, progress, out, text);
    Turn {
        progress: join(room, turn.progress, b),
        ..turn
    }
}

// Comes to the end of the listing. Where that ends a line, the line is mended.
fn finish(family: Family, room: &[u8], progress: Progress, out: &mut [u8], text: &mut [u8]) -> Turn
    requires { progress.kept ≤ length room.now }
    ensures { (result ≡ finished family room.now progress (length out.old) (length text.old)) × ((out.new ≡ finished_out family room.now progress out.old) × (text.new ≡ finished_text family room.now progress text.old)) }
{
    if progress.kept == 0 {
        return Turn {
            progress,
            bytes: 0,
            count: 0,
        };
    }
    tell(family, room, progress, out, text)
}

// Closes the listing: mends a last line without CR or LF, and tells the counts.
pub(crate) fn close(
    family: Family,
    room: &[u8],
    progress: Progress,
    out: &mut [u8],
    text: &mut [u8],
) -> Last
    requires { progress.kept ≤ length room.now }
    ensures { Closes family room.now progress out.old text.old result out.new text.new }
{
    let turn = finish(family, room, progress, out, text);
    let all = turn.progress.counts;
    let n = turn.count;
    let line = tally(
        all.lines,
        all.unchanged,
        all.mended,
        all.refused,
        &mut text[n..],
    );
    Last {
        bytes: turn.bytes,
        count: n + line,
    }
}
