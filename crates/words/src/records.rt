// The record that a word gives, as a host in C lends it, and the count that a record holds.
ghost use Rattle.std.specs.Prelude.{◌≡◌};
ghost use Rattle.units.specs.Counts.{whole};
ghost use Rattle.words.specs.Records.{blank, record_of, count_by, count_of, ten_to, whole_right, limit_of, count_right, text_right, is_right, typed_of};

use units::counts::{
    Count, DEGREE_LIMIT, GON_LIMIT, MIL_LIMIT, TENTH_LIMIT, Whole, angle_of, constant_of, first_of,
    length_of, second_of,
};
use units::information::info_right;
use units::kinds::{Family, Kind, kind_of, textual};

// A word's index, its information (whose first byte is 0 where position 3 belongs to the index), the sign and size of its value and of a pair's mm, and its
// text. A sign is 0 or 1; what a word doesn't use is 0.
#[repr(C)]
#[derive(Clone, Copy)]
pub struct Word {
    pub index: u16,
    pub info: [u8; 4],
    pub minus: u8,
    pub mmminus: u8,
    pub size: u64,
    pub mm: u64,
    pub text: [u8; 16],
}

impl Word {
    // Gives the number of a word, or the ppm of a pair.
    fn value(self) -> Whole
        ensures { result ≡ whole self.minus self.size }
    {
        Whole {
            minus: self.minus,
            size: self.size,
        }
    }

    // Gives the mm of a pair.
    fn under(self) -> Whole
        ensures { result ≡ whole self.mmminus self.mm }
    {
        Whole {
            minus: self.mmminus,
            size: self.mm,
        }
    }
}

// Gives the record that holds nothing.
pub fn blank_word() -> Word
    ensures { result ≡ blank }
{
    Word {
        index: 0,
        info: [0; 4],
        minus: 0,
        mmminus: 0,
        size: 0,
        mm: 0,
        text: [0; 16],
    }
}

// Makes the record of a count.
pub fn record_of(index: u16, info: [u8; 4], count: Count, text: [u8; 16]) -> Word
    ensures { result ≡ record_of index info count text }
{
    let first = first_of(count);
    let second = second_of(count);
    Word {
        index,
        info,
        minus: first.minus,
        mmminus: second.minus,
        size: first.size,
        mm: second.size,
        text,
    }
}

// Gives what a record of that kind counts, by its unit.
fn count_by(w: Word, kind: Kind) -> Count
    ensures { result ≡ count_by kind w }
{
    let unit = w.info[3];
    match kind {
        Kind::Missing => Count::Nothing,
        Kind::Numbered | Kind::Text => Count::Text,
        Kind::Angle => angle_of(unit, w.value()),
        Kind::Length => length_of(unit, w.value()),
        Kind::Constant => constant_of(w.index, w.value()),
        Kind::Pair => Count::Pair(w.value(), w.under()),
    }
}

// Gives the count that a record says.
fn count_of(w: Word, family: Family) -> Count
    ensures { result ≡ count_of family w }
{
    count_by(w, kind_of(family, w.index))
}

// Gives the first number that has more digits than a word of the width, or than the ppm of its pair.
fn ten_to(wide: bool, pair: bool) -> u64
    ensures { result ≡ ten_to wide pair }
{
    match (pair, wide) {
        (true, true) => 1_000_000_000_000,
        (true, false) => 10_000,
        (false, true) => 10_000_000_000_000_000,
        (false, false) => 100_000_000,
    }
}

fn whole_right(whole: Whole, limit: u64) -> bool
    ensures { result ≡ whole_right whole limit }
{
    whole.minus <= 1 && whole.size < limit
}

// Gives the first number that a count of one number doesn't reach.
fn limit_of(count: Count, wide: bool) -> u64
    ensures { result ≡ limit_of wide count }
{
    match count {
        Count::Gon(_) => GON_LIMIT,
        Count::Degree(_) => DEGREE_LIMIT,
        Count::Tenth(_) => TENTH_LIMIT,
        Count::Mil(_) => MIL_LIMIT,
        _ => ten_to(wide, false),
    }
}

// Tells whether a word of the width can have the count.
fn count_right(count: Count, wide: bool) -> bool
    ensures { result ≡ count_right wide count }
{
    match count {
        Count::Nothing => false,
        Count::Text => true,
        Count::Pair(ppm, mm) => whole_right(ppm, ten_to(wide, true)) && whole_right(mm, 1_000),
        _ => whole_right(first_of(count), limit_of(count, wide)),
    }
}

// Tells whether a word of that kind and width can have the text.
#[tactic(auto, using(crate::proofs::Checks::wide_text))]
fn text_right(kind: Kind, text: [u8; 16], wide: bool) -> bool
    ensures { result ≡ text_right wide kind text }
{
    if !textual(kind) {
        return figures::all_within(&text, 0, 0);
    }
    if wide {
        return figures::all_within(&text, 33, 126);
    }
    figures::all_within(&text[..8], 33, 126) && figures::all_within(&text[8..], 0, 0)
}

// Tells whether some word of the family and width gives the record.
pub fn right(w: Word, family: Family, wide: bool) -> bool
    ensures { result ≡ is_right family wide w }
{
    let kind = kind_of(family, w.index);
    let count = count_by(w, kind);
    info_right(family, w.index, kind, w.info)
        && count_right(count, wide)
        && first_of(count) == w.value()
        && second_of(count) == w.under()
        && text_right(kind, w.text, wide)
}

// Gives the typed count of a record; Nothing where no word of the family gives the record, of either width.
pub fn count(w: Word, family: Family) -> Count
    ensures { result ≡ typed_of family w }
{
    if right(w, family, false) || right(w, family, true) {
        count_of(w, family)
    } else {
        Count::Nothing
    }
}
