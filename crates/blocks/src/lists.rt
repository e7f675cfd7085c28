// The list of word records that a caller lends: the reader fills it, the writer reads it.
ghost use Rattle.std.specs.Prelude.{◌≡◌, ℕ, true, ◌+◌, ◌≤◌, ◌<◌, length, drop, get_or};
ghost use Rattle.figures.specs.Bytes.{laid};
ghost use Rattle.figures.specs.Text.{star_bytes};
ghost use Rattle.words.specs.Reading.{word_size, judged_right, judged_in, word_in, word_of};
ghost use Rattle.words.specs.Records.{blank, is_right};
ghost use Rattle.words.specs.Writing.{bytes_of};
ghost use Rattle.blocks.specs.Judging.{first_at, judged};
ghost use Rattle.blocks.specs.Rules.{word_start};
ghost use Rattle.blocks.specs.Composing.{words_bytes, Writes};
ghost use Rattle.blocks.specs.Lists.{Reads};
ghost use Rattle.blocks.specs.Keeping.{right_run, size_of, judged_list, laid_at, PutsFit, EndsFit, ended_room};

use crate::answers::{Reading, Refusal};
use crate::judging::{judge, start_of};
use crate::putting::put_word;
use crate::taking::record_at;
use units::kinds::Family;
use words::reading::width_of;
use words::records::{Word, right};

// Gives the record of word number i of a block of the width, counted from 0, which is right.
fn word_of(s: &[u8], family: Family, wide: bool, i: usize) -> Word
    requires { judged_in (word_of family wide (drop (word_start wide i) s.now)) ≡ judged_right }
    ensures { result ≡ word_in (word_of family wide (drop (word_start wide i) s.now)) }
{
    let at = start_of(wide) + i * (width_of(wide) + 8);
    record_at(&s[at..], family, wide)
}

// Fills the list with the records of a block's first words, which are right.
fn fill(s: &[u8], family: Family, wide: bool, list: &mut [Word])
    requires { (k : ℕ) → k < length list.old → judged_in (word_of family wide (drop (word_start wide k) s.now)) ≡ judged_right }
    ensures { (k : ℕ) → k < length list.old → get_or list.new k blank ≡ word_in (word_of family wide (drop (word_start wide k) s.now)) }
{
    for (i, place) in list.iter_mut().enumerate() {
        *place = word_of(s, family, wide, i);
    }
}

// Reads the block of the family at the start of s into the list. Refused, the list is untouched; read, the records beyond the block's are.
pub fn read(s: &[u8], family: Family, list: &mut [Word]) -> Result<Reading, Refusal>
    ensures { Reads family s.now list.old result list.new }
{
    let reading = judge(s, family, list.len())?;
    fill(s, family, reading.wide, &mut list[..reading.words]);
    Ok(reading)
}

// Counts the records at the start of the list that words of the family and width give.
fn right_run(list: &[Word], family: Family, wide: bool) -> usize
    ensures { result ≡ right_run family wide list.now }
{
    list.iter()
        .position(|w| !right(*w, family, wide))
        .unwrap_or(list.len())
}

// Tells how many bytes a block of n words has.
fn size_of(n: usize, wide: bool, crlf: bool) -> usize
    requires { n ≤ 32 }
    ensures { result ≡ size_of n wide crlf }
{
    start_of(wide) + n * (width_of(wide) + 8) + if crlf { 2 } else { 1 }
}

// Gives how many bytes the block of a list's records has, or tells why it isn't written into a room of so many.
fn judge_list(
    list: &[Word],
    family: Family,
    wide: bool,
    crlf: bool,
    room: usize,
) -> Result<usize, Refusal>
    ensures { result ≡ judged_list family wide crlf list.now room }
{
    let n = list.len();
    if n == 0 || 32 < n {
        return Err(Refusal::Count);
    }
    let run = right_run(list, family, wide);
    if run < n {
        return Err(Refusal::Record(run));
    }
    let size = size_of(n, wide, crlf);
    if room < size {
        return Err(Refusal::Room(size));
    }
    Ok(size)
}

// Lays the `*` of a wide block.
fn put_star(wide: bool, out: &mut [u8])
    requires { first_at wide ≤ length out.old }
    ensures { out.new ≡ laid (star_bytes wide) out.old }
{
    if wide {
        out[0] = b'*';
    }
}

// Puts the word of a right record as word number i of the block.
fn put_at(w: Word, family: Family, wide: bool, i: usize, out: &mut [u8])
    requires { (is_right family wide w ≡ true) × (word_start wide i + word_size wide ≤ length out.old) }
    ensures { out.new ≡ laid_at (word_start wide i) (bytes_of family wide w) out.old }
{
    let at = start_of(wide) + i * (width_of(wide) + 8);
    put_word(w, family, wide, &mut out[at..]);
}

// Puts the words of right records, each where it belongs.
fn put_words(list: &[Word], family: Family, wide: bool, out: &mut [u8])
    requires { PutsFit family wide list.now out.old }
    ensures { out.new ≡ laid_at (first_at wide) (words_bytes family wide list.now) out.old }
{
    for (i, w) in list.iter().enumerate() {
        put_at(*w, family, wide, i, out);
    }
}

// Lays the terminator of a block of so many bytes.
fn put_end(size: usize, crlf: bool, out: &mut [u8])
    requires { EndsFit size out.old }
    ensures { out.new ≡ ended_room size crlf out.old }
{
    if crlf {
        out[size - 2] = b'\r';
        out[size - 1] = b'\n';
    } else {
        out[size - 1] = b'\r';
    }
}

// Writes the list's records as one block of the family into the room. Refused, the room is untouched; written, the room beyond the block is.
pub fn write(
    list: &[Word],
    family: Family,
    wide: bool,
    crlf: bool,
    out: &mut [u8],
) -> Result<usize, Refusal>
    ensures { Writes family list.now wide crlf out.old result out.new }
{
    let size = judge_list(list, family, wide, crlf, out.len())?;
    put_star(wide, out);
    put_words(list, family, wide, out);
    put_end(size, crlf, out);
    Ok(size)
}
