// One word read by value from the start of a part of the input. The positions are judged left to right, and the first that is wrong
// refuses the word.
ghost use Rattle.std.specs.Prelude.{◌≡◌, ◌≤◌, length, get_or};
ghost use Rattle.words.specs.Records.{width};
ghost use Rattle.words.specs.Reading.{fault_number, word_size, data_at, text_field, wrong_at, wrong_index, word_of};
ghost use Rattle.words.specs.Keeping.{digits_at, pair_at, spelled_at, parted_at, data_word, listed_word};

use crate::records::{Word, record_of};
use units::counts::{Figures, value_at};
use units::information::{info_at, info_right, lead_of, sign_at};
use units::kinds::{Family, Kind, Unindexed, index_at, textual};

// Why a word is refused.
#[derive(Clone, Copy, PartialEq, Eq)]
pub enum Fault {
    Short,
    Index,
    Unlisted,
    Information,
    Sign,
    Characters,
    Separator,
    Value,
}

// Why a word is refused, and the byte of the word that is told, from 0.
#[derive(Clone, Copy, PartialEq, Eq)]
pub struct Wrong {
    pub fault: Fault,
    pub at: usize,
}

impl Wrong {
    pub fn new(fault: Fault, at: usize) -> Wrong
        ensures { result ≡ wrong_at fault at }
    {
        Wrong { fault, at }
    }
}

impl From<Unindexed> for Wrong {
    ghost from_gives = { λ u w. w ≡ wrong_index u };

    fn from(u: Unindexed) -> Wrong {
        match u {
            Unindexed::Other(at) => Wrong::new(Fault::Index, at),
            Unindexed::Unlisted => Wrong::new(Fault::Unlisted, 0),
        }
    }
}

// Gives the number that the rules have for a fault.
pub fn fault_number(fault: Fault) -> u64
    ensures { result ≡ fault_number fault }
{
    match fault {
        Fault::Short => 2,
        Fault::Index => 5,
        Fault::Unlisted => 15,
        Fault::Information => 6,
        Fault::Sign => 7,
        Fault::Characters => 8,
        Fault::Separator => 9,
        Fault::Value => 10,
    }
}

// Tells how many characters of data a word has.
pub fn width_of(wide: bool) -> usize
    ensures { result ≡ width wide }
{
    if wide { 16 } else { 8 }
}

fn digits_at(s: &[u8]) -> Option<Figures>
    ensures { result ≡ digits_at s.now }
{
    Some(Figures::Number(figures::number(s)?))
}

// Reads a pair: digits, a sign, three digits.
#[tactic(auto, using(crate::proofs::Checks::pair_read, crate::proofs::Checks::mm_part))]
fn pair_at(s: &[u8]) -> Option<Figures>
    requires { 4 ≤ length s.now }
    ensures { result ≡ pair_at s.now }
{
    let at = s.len() - 4;
    let ppm = figures::number(&s[..at])?;
    let under = sign_at(Kind::Pair, s[at])?;
    let mm = figures::number(&s[at + 1..])?;
    Some(Figures::Pair(ppm, under, mm))
}

// Reads the data of a word of that kind; None where a character of them is wrong.
fn spelled_at(kind: Kind, s: &[u8]) -> Option<Figures>
    requires { 4 ≤ length s.now }
    ensures { result ≡ spelled_at kind s.now }
{
    match kind {
        Kind::Missing => None,
        Kind::Numbered | Kind::Text => figures::all_within(s, 33, 126).then_some(Figures::Text),
        Kind::Angle | Kind::Length | Kind::Constant => digits_at(s),
        Kind::Pair => pair_at(s),
    }
}

// Finds the first byte of a pair's data that is wrong.
#[tactic(auto, using(crate::proofs::Checks::pair_told, crate::proofs::Checks::mm_part, crate::proofs::Letters::passing_most))]
fn pair_wrong(s: &[u8]) -> usize
    requires { 4 ≤ length s.now }
    ensures { (result ≡ data_at Kind.Pair s.now) × (result ≤ length s.now) }
{
    let at = s.len() - 4;
    let ppm = figures::run_within(&s[..at], b'0', b'9');
    if ppm < at {
        return ppm;
    }
    if sign_at(Kind::Pair, s[at]).is_none() {
        return at;
    }
    at + 1 + figures::run_within(&s[at + 1..], b'0', b'9')
}

// Finds the first wrong byte in the data of a word of that kind.
#[tactic(auto, using(crate::proofs::Letters::passing_one))]
fn data_wrong(kind: Kind, s: &[u8]) -> usize
    requires { 4 ≤ length s.now }
    ensures { (result ≡ data_at kind s.now) × (result ≤ length s.now) }
{
    match kind {
        Kind::Missing => 0,
        Kind::Numbered | Kind::Text => figures::run_within(s, 33, 126),
        Kind::Angle | Kind::Length | Kind::Constant => figures::run_within(s, b'0', b'9'),
        Kind::Pair => pair_wrong(s),
    }
}

// Tells whether the byte parts a word from what follows.
pub fn parted_at(b: u8) -> bool
    ensures { result ≡ parted_at b }
{
    b == b' '
}

// Gives the text of a word of that kind, from the start of 16 bytes.
fn text_of(kind: Kind, s: &[u8]) -> [u8; 16]
    ensures { result ≡ text_field kind s.now }
{
    let mut text = [0; 16];
    if textual(kind) {
        figures::lay(s, &mut text);
    }
    text
}

// Reads the rest of a word whose positions 1-7 are right: its data, its blank and its value, and makes the record.
fn read_data(
    index: u16,
    kind: Kind,
    info: [u8; 4],
    minus: u8,
    s: &[u8],
    last: u8,
) -> Result<Word, Wrong>
    requires { (4 ≤ length s.now) × (length s.now ≤ 16) }
    ensures { result ≡ data_word index kind info (get_or info 3 0) minus s.now last }
{
    let Some(says) = spelled_at(kind, s) else {
        return Err(Wrong::new(Fault::Characters, 7 + data_wrong(kind, s)));
    };
    if !parted_at(last) {
        return Err(Wrong::new(Fault::Separator, 7 + s.len()));
    }
    let count = value_at(kind, index, info[3], minus, says).ok_or(Wrong::new(Fault::Value, 7))?;
    Ok(record_of(index, info, count, text_of(kind, s)))
}

// Reads the rest of a word whose positions 1-3 are an index of that kind: its information and its sign, and what follows.
fn read_listed(s: &[u8], family: Family, wide: bool, index: u16, kind: Kind) -> Result<Word, Wrong>
    requires { word_size wide ≤ length s.now }
    ensures { result ≡ listed_word family wide index kind s.now }
{
    let info = [lead_of(index, s[2]), s[3], s[4], s[5]];
    if !info_right(family, index, kind, info) {
        return Err(Wrong::new(Fault::Information, 2 + info_at(family, index, kind, info)));
    }
    let minus = sign_at(kind, s[6]).ok_or(Wrong::new(Fault::Sign, 6))?;
    let end = 7 + width_of(wide);
    read_data(index, kind, info, minus, &s[7..end], s[end])
}

// Reads the word of the family that stands at the start of s; it is Short where s has fewer bytes than a word of the width.
pub fn read_word(s: &[u8], family: Family, wide: bool) -> Result<Word, Wrong>
    ensures { result ≡ word_of family wide s.now }
{
    if s.len() <= 7 + width_of(wide) {
        return Err(Wrong::new(Fault::Short, 0));
    }
    let (index, kind) = index_at(family, s[0], s[1], s[2])?;
    read_listed(s, family, wide, index, kind)
}
