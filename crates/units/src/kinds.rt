// The index of a word and its kind, by the family of instruments that a block is from.
ghost use Rattle.std.specs.Prelude.{◌≡◌, ◌<◌, true, cond};
ghost use Rattle.figures.specs.Decimal.{are_digits};
ghost use Rattle.units.specs.declared.kinds.Kind as Kind;
ghost use Rattle.units.specs.Kinds.{station_kind, level_kind, class_kind, kind_of, is_textual, index_of, named_by, of_kind, level_at, index_at};

use crate::classes::class_of;

// Total stations and digital levels.
#[derive(Clone, Copy, PartialEq, Eq)]
pub enum Family {
    Station,
    Level,
}

#[derive(Clone, Copy, PartialEq, Eq)]
pub enum Kind {
    Missing,
    Numbered,
    Text,
    Angle,
    Length,
    Constant,
    Pair,
}

// Why positions 1-3 are no index: a byte that is no digit, from 0, or digits that the family doesn't have.
#[derive(Clone, Copy, PartialEq, Eq)]
pub enum Unindexed {
    Other(usize),
    Unlisted,
}

// The kinds of a total station's indexes in two parts, each small enough for the compiler to join it with every caller (docs/BENCHMARK.md).

// Gives the kind of a total station's index whose words hold numbers; Missing for any other.
#[tactic(auto, unfolding(figures::specs::Bytes::among))]
pub fn number_kind(index: u16) -> Kind
    ensures { result ≡ cond (is_textual (station_kind index)) Kind.Missing (station_kind index) }
{
    match index {
        21 | 22 | 24 => Kind::Angle,
        31..=34 | 81..=88 => Kind::Length,
        58 | 59 => Kind::Constant,
        51 => Kind::Pair,
        _ => Kind::Missing,
    }
}

// Gives the kind of a total station's index whose words hold text; Missing for any other.
#[tactic(auto, unfolding(figures::specs::Bytes::among))]
fn text_kind(index: u16) -> Kind
    ensures { result ≡ cond (is_textual (station_kind index)) (station_kind index) Kind.Missing }
{
    match index {
        11 | 41 => Kind::Numbered,
        12 | 13 | 16 | 18 | 19 | 52 | 53 => Kind::Text,
        42..=49 | 71..=79 => Kind::Text,
        _ => Kind::Missing,
    }
}

// Gives the kind of a total station's index.
fn station_kind(index: u16) -> Kind
    ensures { result ≡ station_kind index }
{
    match number_kind(index) {
        Kind::Missing => text_kind(index),
        number => number,
    }
}

// Gives the kind of a level's index of two digits.
#[tactic(auto, unfolding(figures::specs::Bytes::among))]
fn level_kind(index: u16) -> Kind
    ensures { result ≡ level_kind index }
{
    match index {
        11 | 41 => Kind::Numbered,
        42..=49 | 52 | 57 => Kind::Text,
        32 | 83 => Kind::Length,
        _ => Kind::Missing,
    }
}

// Gives the kind of a record whose three digits are of that class.
fn class_kind(class: u8) -> Kind
    ensures { result ≡ class_kind class }
{
    match class {
        b'1' => Kind::Length,
        b'2' => Kind::Text,
        _ => Kind::Missing,
    }
}

// Gives the kind of a record's index.
#[tactic(auto, using(crate::proofs::ThreeDigits::four_digits))]
pub fn kind_of(family: Family, index: u16) -> Kind
    ensures { result ≡ kind_of family index }
{
    match family {
        Family::Station => station_kind(index),
        Family::Level if index < 100 => level_kind(index),
        Family::Level if index < 1000 => class_kind(class_of(index)),
        Family::Level => Kind::Missing,
    }
}

// Tells whether a word of that kind holds text.
pub fn textual(kind: Kind) -> bool
    ensures { result ≡ is_textual kind }
{
    matches!(kind, Kind::Numbered | Kind::Text)
}

// Gives the index that two digits say.
#[tactic(auto, using(figures::proofs::Bytes::within_bounds))]
fn index_of(tens: u8, ones: u8) -> u16
    requires { are_digits tens ones ≡ true }
    ensures { result ≡ index_of tens ones }
{
    u16::from(tens - b'0') * 10 + u16::from(ones - b'0')
}

// Reads the index that two characters name; None where they aren't two digits.
pub fn named_by(tens: u8, ones: u8) -> Option<u16>
    ensures { result ≡ named_by tens ones }
{
    if figures::digit(tens) && figures::digit(ones) {
        Some(index_of(tens, ones))
    } else {
        None
    }
}

// Answers an index that has a kind.
fn listed_as(index: u16, kind: Kind) -> Result<(u16, Kind), Unindexed>
    ensures { result ≡ of_kind index kind }
{
    match kind {
        Kind::Missing => Err(Unindexed::Unlisted),
        _ => Ok((index, kind)),
    }
}

// Finds a level's index: position 3 decides whether two digits or three are looked up.
fn level_at(two: u16, third: u8) -> Result<(u16, Kind), Unindexed>
    requires { two < 100 }
    ensures { result ≡ level_at two third }
{
    if !figures::digit(third) {
        return listed_as(two, level_kind(two));
    }
    let three = two * 10 + u16::from(third - b'0');
    match class_of(three) {
        b'1' => Ok((three, Kind::Length)),
        b'2' => Ok((three, Kind::Text)),
        b'3' => Ok((two, Kind::Numbered)),
        _ => Err(Unindexed::Unlisted),
    }
}

// Finds the index that positions 1-3 say, and its kind.
#[inline(always)]
pub fn index_at(family: Family, tens: u8, ones: u8, third: u8) -> Result<(u16, Kind), Unindexed>
    ensures { result ≡ index_at family tens ones third }
{
    if !figures::digit(tens) {
        return Err(Unindexed::Other(0));
    }
    if !figures::digit(ones) {
        return Err(Unindexed::Other(1));
    }
    let two = index_of(tens, ones);
    match family {
        Family::Station => listed_as(two, station_kind(two)),
        Family::Level => level_at(two, third),
    }
}
