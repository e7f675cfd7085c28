// A block judged: the answer, and no record.
ghost use Rattle.std.specs.Prelude.{◌≡◌, ◌≤◌, ◌<◌, Ok, length, drop};
ghost use Rattle.blocks.specs.Judging.{is_at, first_at, ended_at, judged};
ghost use Rattle.blocks.specs.Keeping.{opened, next_of, AnswersFrom, Runs};

use crate::answers::{Reading, Refusal};
use crate::fitting::fits;
use units::kinds::Family;
use words::reading::{Fault, read_word, width_of};

// What stands where a word would start, where nothing is wrong there: the block's end or a word.
#[derive(Clone, Copy)]
pub enum Next {
    Ends,
    Goes,
}

// Tells whether the byte at a place is b.
fn is_at(s: &[u8], at: usize, b: u8) -> bool
    ensures { result ≡ is_at b (drop at s.now) }
{
    at < s.len() && s[at] == b
}

// Judges what stands where a word would start; the order is CR, 4, 2, 11, then the word's own.
fn step(
    s: &[u8],
    family: Family,
    wide: bool,
    at: usize,
    count: usize,
    places: usize,
) -> Result<Next, Refusal>
    requires { at ≤ length s.now }
    ensures { result ≡ next_of family wide places count at (drop at s.now) }
{
    if is_at(s, at, b'\r') {
        return Ok(Next::Ends);
    }
    if 32 <= count {
        return Err(Refusal::NoEnd(at));
    }
    let rest = &s[at..];
    if rest.len() < width_of(wide) + 8 {
        return Err(Refusal::Wrong(Fault::Short, at));
    }
    if places <= count {
        return Err(Refusal::NoPlace(at));
    }
    match read_word(rest, family, wide) {
        Ok(_) => Ok(Next::Goes),
        Err(wrong) => Err(Refusal::Wrong(wrong.fault, at + wrong.at)),
    }
}

// Tells where the first word of a block starts.
pub fn start_of(wide: bool) -> usize
    ensures { result ≡ first_at wide }
{
    if wide { 1 } else { 0 }
}

// Gives the reading of a block of so many words, whose CR stands at a place.
fn ended(s: &[u8], wide: bool, at: usize, words: usize) -> Reading
    requires { at < length s.now }
    ensures { Ok result ≡ ended_at wide at (drop at s.now) words }
{
    let crlf = is_at(s, at + 1, b'\n');
    Reading {
        wide,
        crlf,
        words,
        used: if crlf { at + 2 } else { at + 1 },
    }
}

// Answers a block by its words from a place on, before which so many stand.
fn answer_from(
    s: &[u8],
    family: Family,
    wide: bool,
    start: usize,
    count: usize,
    places: usize,
) -> Result<Reading, Refusal>
    requires { (start ≤ length s.now) × (count ≤ 32) }
    ensures { AnswersFrom family wide places start count s.now result }
{
    let size = width_of(wide) + 8;
    let mut n = count;
    let mut at = start;
    while let Next::Goes = step(s, family, wide, at, n, places)? {
        n += 1;
        at += size;
    }
    Ok(ended(s, wide, at, n))
}

// Gives the width of a block's words, where it has any.
fn opened(s: &[u8]) -> Result<bool, Refusal>
    ensures { result ≡ opened s.now }
{
    if s.is_empty() {
        return Err(Refusal::Empty);
    }
    let wide = s[0] == b'*';
    if is_at(s, start_of(wide), b'\r') {
        return Err(Refusal::NoWord);
    }
    Ok(wide)
}

// Counts the words from a place on that are right, up to so many.
#[inline(always)]
fn run_of(s: &[u8], family: Family, wide: bool, start: usize, most: usize) -> usize
    requires { start ≤ length s.now }
    ensures { Runs family wide start most s.now result }
{
    let size = width_of(wide) + 8;
    let mut at = start;
    for n in 0..most {
        if !fits(&s[at..], family, wide) {
            return n;
        }
        at += size;
    }
    most
}

// Answers the block of the family at the start of s, with so many places for its records. Its words are run through by yes or no first; where they don't end
// in a CR, `answer_from` says why. It is compiled in place at each caller, so that reading costs no call more (docs/BENCHMARK.md).
#[inline(always)]
pub fn judge(s: &[u8], family: Family, places: usize) -> Result<Reading, Refusal>
    ensures { result ≡ (judged family s.now places).answer }
{
    let wide = opened(s)?;
    let start = start_of(wide);
    let n = run_of(s, family, wide, start, places.min(32));
    let at = start + n * (width_of(wide) + 8);
    if is_at(s, at, b'\r') {
        return Ok(ended(s, wide, at, n));
    }
    answer_from(s, family, wide, at, n, places)
}

// Answers the block of the family at the start of s, with a place for each of its words: for callers that need no record.
pub fn answer_of(s: &[u8], family: Family) -> Result<Reading, Refusal>
    ensures { result ≡ (judged family s.now 32).answer }
{
    judge(s, family, 32)
}
