// A file read byte by byte: the piece that comes in is kept, and reported when it has ended.
ghost use Rattle.std.specs.Prelude.{◌≡◌, ◌∷◌, [], ◌≤◌, length};
ghost use Rattle.figures.specs.Rooms.{put_at};
ghost use Rattle.reading.specs.Turns.{started, turn_of, joined, reported, told_text, Feeds, finished, finished_text, Closes};

use figures::rooms::Room;
use files::counting::more;
use pieces::{Mark, after, joins};
use reports::piece::{ENOUGH, report, tally};
use units::kinds::Family;

// How many bytes of a piece are kept. A block is at most 771 bytes long, and no more of a text is shown, so the piece is reported as if all of it
// were kept.
pub const KEPT: usize = 800;

// Room for the longest report, and for the last line, of at most 87 bytes.
pub const TEXT: usize = ENOUGH + 87;

// How far the file is read: of the piece that comes in its mark, how many of its bytes are kept and where it starts; the place of the next byte;
// and the blocks before it.
#[derive(Clone, Copy)]
pub struct Progress {
    pub mark: Mark,
    pub kept: usize,
    pub place: u64,
    pub next: u64,
    pub blocks: u64,
    pub accepted: u64,
    pub refused: u64,
}

// How far it is read then, and how many bytes of report there are.
#[derive(Clone, Copy)]
pub struct Turn {
    pub progress: Progress,
    pub count: usize,
}

pub(crate) fn start() -> Progress
    ensures { result ≡ started }
{
    Progress {
        mark: Mark::Open,
        kept: 0,
        place: 0,
        next: 0,
        blocks: 0,
        accepted: 0,
        refused: 0,
    }
}

// Takes the piece's next byte.
fn join(room: &mut [u8], progress: &mut Progress, b: u8)
    ensures { (progress.new ≡ joined (length room.old) progress.old b) × (room.new ≡ put_at room.old progress.old.kept (b ∷ [])) }
{
    let mut kept = Room {
        bytes: room,
        at: progress.kept,
    };
    kept.put(&[b]);
    progress.kept = kept.at;
    progress.mark = after(progress.mark, b);
    progress.next = more(progress.next);
}

// Puts the report of the piece, which has ended.
fn tell(family: Family, room: &[u8], progress: &mut Progress, text: &mut [u8]) -> usize
    requires { progress.old.kept ≤ length room.now }
    ensures { (turn_of progress.new result ≡ reported family room.now progress.old (length text.old)) × (text.new ≡ told_text family room.now progress.old text.old) }
{
    let blocks = more(progress.blocks);
    let reported = report(family, blocks, progress.place, &room[..progress.kept], text);
    if reported.accepted {
        progress.accepted = more(progress.accepted);
    } else {
        progress.refused = more(progress.refused);
    }
    progress.mark = Mark::Open;
    progress.kept = 0;
    progress.place = progress.next;
    progress.blocks = blocks;
    reported.count
}

// Takes the next byte of the file. Where it starts a piece, the report of the one before is put.
pub(crate) fn feed(
    family: Family,
    room: &mut [u8],
    progress: &mut Progress,
    b: u8,
    text: &mut [u8],
) -> usize
    requires { progress.old.kept ≤ length room.old }
    ensures { Feeds family room.old progress.old b text.old (turn_of progress.new result) room.new text.new }
{
    if joins(progress.mark, b) {
        join(room, progress, b);
        return 0;
    }
    let n = tell(family, room, progress, text);
    join(room, progress, b);
    n
}

// Comes to the end of the file. Where that ends a piece, the report of the piece is put.
fn finish(family: Family, room: &[u8], progress: Progress, text: &mut [u8]) -> Turn
    requires { progress.kept ≤ length room.now }
    ensures { (result ≡ finished family room.now progress (length text.old)) × (text.new ≡ finished_text family room.now progress text.old) }
{
    if progress.kept == 0 {
        return Turn { progress, count: 0 };
    }
    let mut after = progress;
    let count = tell(family, room, &mut after, text);
    Turn {
        progress: after,
        count,
    }
}

// Closes the file: puts the report of a last piece without CR and, after it, the last line.
pub(crate) fn close(family: Family, room: &[u8], progress: Progress, text: &mut [u8]) -> usize
    requires { progress.kept ≤ length room.now }
    ensures { Closes family room.now progress text.old result text.new }
{
    let turn = finish(family, room, progress, text);
    let all = turn.progress;
    let n = turn.count;
    n + tally(all.blocks, all.accepted, all.refused, &mut text[n..])
}
