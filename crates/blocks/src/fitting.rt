// Whether a word is right, as a yes or no; what is wrong with it, and where, `read_word` tells. It is compiled in place where the words of a block are run through
// (docs/BENCHMARK.md).
ghost use Rattle.std.specs.Prelude.{◌≡◌, true, ◌≤◌, is_ok, length};
ghost use Rattle.figures.specs.Bytes.{every, within};
ghost use Rattle.words.specs.Reading.{word_size, data_in, data_right, word_of};
ghost use Rattle.units.specs.declared.kinds.Kind as Kind;
ghost use Rattle.blocks.specs.Keeping.{Ranges};

use crate::digits::number_at;
use units::counts::angle_at;
use units::information::{info_right, lead_of, sign_at};
use units::kinds::{Family, Kind, index_at};
use words::reading::{parted_at, width_of};

// Tells whether all of a word's data are from low to high.
#[inline(always)]
fn data_within(s: &[u8], wide: bool, low: u8, high: u8) -> bool
    requires { word_size wide ≤ length s.now }
    ensures { result ≡ every (within low high) (data_in wide s.now) }
{
    figures::all_within(&s[7..15], low, high)
        && (!wide || figures::all_within(&s[15..23], low, high))
}

// Tells whether the data are a pair: digits, a sign, three digits.
#[tactic(auto, using(crate::proofs::Fit::pair_checked, words::proofs::Checks::mm_part))]
fn pair_right(s: &[u8]) -> bool
    requires { 4 ≤ length s.now }
    ensures { result ≡ data_right Kind.Pair s.now }
{
    let at = s.len() - 4;
    if !figures::all_within(&s[..at], b'0', b'9') {
        return false;
    }
    sign_at(Kind::Pair, s[at]).is_some() && figures::all_within(&s[at + 1..], b'0', b'9')
}

// Tells whether the data of a word of that kind are right.
#[inline(always)]
fn spelt_at(kind: Kind, s: &[u8], wide: bool) -> bool
    requires { word_size wide ≤ length s.now }
    ensures { result ≡ data_right kind (data_in wide s.now) }
{
    match kind {
        Kind::Missing => false,
        Kind::Numbered | Kind::Text => data_within(s, wide, 33, 126),
        Kind::Pair => pair_right(&s[7..7 + width_of(wide)]),
        _ => data_within(s, wide, b'0', b'9'),
    }
}

// Tells whether a word of that kind whose data are right has a value: an angle has one within its range, and any other always.
#[inline(always)]
fn ranged_at(kind: Kind, s: &[u8], wide: bool) -> bool
    requires { (word_size wide ≤ length s.now) × (data_right kind (data_in wide s.now) ≡ true) }
    ensures { Ranges kind wide s.now result }
{
    match kind {
        Kind::Angle => angle_at(s[5], 0, number_at(s, wide)).is_some(),
        _ => true,
    }
}

// Tells whether the word of the family that stands at the start of s is right.
#[inline(always)]
pub(crate) fn fits(s: &[u8], family: Family, wide: bool) -> bool
    ensures { result ≡ is_ok (word_of family wide s.now) }
{
    let end = 7 + width_of(wide);
    if s.len() <= end {
        return false;
    }
    let Ok((index, kind)) = index_at(family, s[0], s[1], s[2]) else {
        return false;
    };
    if !info_right(
        family,
        index,
        kind,
        [lead_of(index, s[2]), s[3], s[4], s[5]],
    ) {
        return false;
    }
    if sign_at(kind, s[6]).is_none() {
        return false;
    }
    if !spelt_at(kind, s, wide) {
        return false;
    }
    parted_at(s[end]) && ranged_at(kind, s, wide)
}
