// The record of a word that is right, by value: nothing is judged here once more.
ghost use Rattle.std.specs.Prelude.{◌≡◌, true, cond, ◌≤◌, length, replicate};
ghost use Rattle.figures.specs.Bytes.{laid};
ghost use Rattle.figures.specs.Decimal.{are_digits};
ghost use Rattle.units.specs.Kinds.{kind_of, is_listed, is_textual, listed_by};
ghost use Rattle.units.specs.Information.{sign_of, is_sign};
ghost use Rattle.units.specs.declared.kinds.Family as Family;
ghost use Rattle.units.specs.declared.kinds.Kind as Kind;
ghost use Rattle.units.specs.declared.counts.Count as Count;
ghost use Rattle.words.specs.Records.{record_of};
ghost use Rattle.words.specs.Reading.{word_size, pos, data_in, index_in, data_right, judged_right, judged_in, word_in, word_of};
ghost use Rattle.blocks.specs.Keeping.{DigitsRight, angle_in, length_in, pair_in};

use crate::digits::{number_at, number_of};
use units::counts::{Count, Whole, angle_at, length_of};
use units::information::lead_of;
use units::kinds::{Family, Kind, number_kind};
use words::reading::width_of;
use words::records::{Word, record_of};

// Gives the index of a word: three digits only where a level has no block number there.
fn index_in(s: &[u8], family: Family) -> u16
    requires { (3 ≤ length s.now) × ((are_digits (pos 1 s.now) (pos 2 s.now) ≡ true) × (listed_by family (pos 1 s.now) (pos 2 s.now) (pos 3 s.now) ≡ true)) }
    ensures { result ≡ index_in family s.now }
{
    let two = u16::from(s[0] - b'0') * 10 + u16::from(s[1] - b'0');
    if let Family::Station = family {
        return two;
    }
    if !figures::digit(s[2]) {
        return two;
    }
    match two {
        11 | 41 => two,
        _ => two * 10 + u16::from(s[2] - b'0'),
    }
}

// Gives the kind of a level's index whose words hold numbers; Missing for one whose words hold text.
#[tactic(auto, unfolding(figures::specs::Bytes::among))]
fn level_in(index: u16) -> Kind
    requires { is_listed (kind_of Family.Level index) ≡ true }
    ensures { result ≡ cond (is_textual (kind_of Family.Level index)) Kind.Missing (kind_of Family.Level index) }
{
    match index {
        32 | 83 => Kind::Length,
        0..=99 | 521 => Kind::Missing,
        _ => Kind::Length,
    }
}

// Gives the kind of an index that the family has and whose words hold numbers; Missing for one whose words hold text. It needn't tell which the family lacks,
// so it asks less than `kind_of`.
pub(crate) fn kind_in(family: Family, index: u16) -> Kind
    requires { is_listed (kind_of family index) ≡ true }
    ensures { result ≡ cond (is_textual (kind_of family index)) Kind.Missing (kind_of family index) }
{
    match family {
        Family::Station => number_kind(index),
        Family::Level => level_in(index),
    }
}

fn minus_at(b: u8) -> u8
    requires { is_sign b ≡ true }
    ensures { result ≡ sign_of b }
{
    if b == b'-' { 1 } else { 0 }
}

// Makes the record of a word with text.
fn text_word(index: u16, info: [u8; 4], s: &[u8], wide: bool) -> Word
    requires { word_size wide ≤ length s.now }
    ensures { result ≡ record_of index info Count.Text (laid (data_in wide s.now) (replicate 16 0)) }
{
    let mut text = [0; 16];
    figures::lay(&s[7..15], &mut text[..8]);
    if wide {
        figures::lay(&s[15..23], &mut text[8..]);
    }
    record_of(index, info, Count::Text, text)
}

// Makes the record of an angle, each arm its own: a count that is chosen before its record is copied on its way (docs/BENCHMARK.md).
fn angle_word(index: u16, info: [u8; 4], s: &[u8], wide: bool) -> Word
    requires { DigitsRight wide s.now }
    ensures { result ≡ record_of index info (angle_in wide s.now) (replicate 16 0) }
{
    match angle_at(s[5], minus_at(s[6]), number_at(s, wide)) {
        Some(count) => record_of(index, info, count, [0; 16]),
        None => record_of(index, info, Count::Nothing, [0; 16]),
    }
}

// Makes the record of a word with one number that is no angle.
fn number_word(index: u16, info: [u8; 4], s: &[u8], wide: bool) -> Word
    requires { DigitsRight wide s.now }
    ensures { result ≡ record_of index info (length_in wide s.now) (replicate 16 0) }
{
    let whole = Whole {
        minus: minus_at(s[6]),
        size: number_at(s, wide),
    };
    record_of(index, info, length_of(s[5], whole), [0; 16])
}

// Makes the record of a pair with that sign before those data: ppm, a sign and mm.
fn pair_word(index: u16, info: [u8; 4], minus: u8, d: &[u8]) -> Word
    requires { (4 ≤ length d.now) × ((length d.now ≤ 16) × (data_right Kind.Pair d.now ≡ true)) }
    ensures { result ≡ record_of index info (pair_in minus d.now) (replicate 16 0) }
{
    let at = d.len() - 4;
    let ppm = Whole {
        minus,
        size: number_of(&d[..at]),
    };
    let mm = Whole {
        minus: minus_at(d[at]),
        size: number_of(&d[at + 1..]),
    };
    record_of(index, info, Count::Pair(ppm, mm), [0; 16])
}

// Gives the record of the word of the family at the start of s, which is right.
pub(crate) fn record_at(s: &[u8], family: Family, wide: bool) -> Word
    requires { judged_in (word_of family wide s.now) ≡ judged_right }
    ensures { result ≡ word_in (word_of family wide s.now) }
{
    let index = index_in(s, family);
    let info = [lead_of(index, s[2]), s[3], s[4], s[5]];
    match kind_in(family, index) {
        Kind::Angle => angle_word(index, info, s, wide),
        Kind::Length | Kind::Constant => number_word(index, info, s, wide),
        Kind::Pair => pair_word(index, info, minus_at(s[6]), &s[7..7 + width_of(wide)]),
        _ => text_word(index, info, s, wide),
    }
}
