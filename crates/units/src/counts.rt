// A word's data and what they count. Each step has a type of its own, with its own limit and its own way to digits, so that a count in gon
// steps and a count in tenths of a second never stand in for each other, nor metre, feet and inch steps.
ghost use Rattle.std.specs.Prelude.{◌≡◌};
ghost use Rattle.units.specs.Counts.{tenth_at, angle_at, angle_of, length_of, constant_of, number_at, value_at, first_of, second_of};

use crate::kinds::Kind;

// A whole number with a sign: minus is 0 or 1, before zero too.
#[derive(Clone, Copy, PartialEq, Eq)]
pub struct Whole {
    pub minus: u8,
    pub size: u64,
}

// 1/100,000 gon.
#[derive(Clone, Copy)]
pub struct Gon(pub Whole);

// 1/100,000 degree.
#[derive(Clone, Copy)]
pub struct Degree(pub Whole);

// A tenth of a second of arc.
#[derive(Clone, Copy)]
pub struct Tenth(pub Whole);

// 1/10,000 mil.
#[derive(Clone, Copy)]
pub struct Mil(pub Whole);

// The last of so many decimals of a metre: 3 for 1 mm, 4 for 1/10 mm, 5 for 1/100 mm.
#[derive(Clone, Copy)]
pub struct Metre(pub Whole, pub u8);

// The last of so many decimals of a foot: 3 or 4.
#[derive(Clone, Copy)]
pub struct Feet(pub Whole, pub u8);

// 1/2000 inch.
#[derive(Clone, Copy)]
pub struct Inch(pub Whole);

// 1/10,000 ppm.
#[derive(Clone, Copy)]
pub struct Ppm(pub Whole);

// What a word counts. Nothing is for a record that no word gives; a pair is ppm, then mm.
#[derive(Clone, Copy)]
pub enum Count {
    Nothing,
    Text,
    Gon(Gon),
    Degree(Degree),
    Tenth(Tenth),
    Mil(Mil),
    Metre(Metre),
    Feet(Feet),
    Inch(Inch),
    Ppm(Ppm),
    Pair(Whole, Whole),
}

// What the data say before they are counted: text, one number, or the two of a pair with the sign between them.
#[derive(Clone, Copy)]
pub enum Figures {
    Text,
    Number(u64),
    Pair(u64, u8, u64),
}

// An angle's size is below its unit's limit.
pub const GON_LIMIT: u64 = 40_000_000;

pub const DEGREE_LIMIT: u64 = 36_000_000;

pub const MIL_LIMIT: u64 = 64_000_000;

// 360 degrees in tenths of a second.
pub const TENTH_LIMIT: u64 = 12_960_000;

// Counts an angle whose digits, from the right, are one of tenths, two of seconds, two of minutes, and the rest degrees.
fn tenth_at(minus: u8, n: u64) -> Option<Count>
    ensures { result ≡ tenth_at minus n }
{
    let degrees = n / 100_000;
    let minutes = n / 1_000 % 100;
    let seconds = n / 10 % 100;
    if 360 <= degrees || 60 <= minutes || 60 <= seconds {
        return None;
    }
    let size = degrees * 36_000 + minutes * 600 + seconds * 10 + n % 10;
    Some(Count::Tenth(Tenth(Whole { minus, size })))
}

// Gives the count of an angle of that unit, with that sign before that number; None out of its range.
pub fn angle_at(unit: u8, minus: u8, n: u64) -> Option<Count>
    ensures { result ≡ angle_at unit minus n }
{
    let whole = Whole { minus, size: n };
    match unit {
        b'2' => (n < GON_LIMIT).then_some(Count::Gon(Gon(whole))),
        b'3' => (n < DEGREE_LIMIT).then_some(Count::Degree(Degree(whole))),
        b'4' => tenth_at(minus, n),
        _ => (n < MIL_LIMIT).then_some(Count::Mil(Mil(whole))),
    }
}

// Gives the count of an angle of that unit.
pub fn angle_of(unit: u8, whole: Whole) -> Count
    ensures { result ≡ angle_of unit whole }
{
    match unit {
        b'2' => Count::Gon(Gon(whole)),
        b'3' => Count::Degree(Degree(whole)),
        b'4' => Count::Tenth(Tenth(whole)),
        _ => Count::Mil(Mil(whole)),
    }
}

// Gives the count of a length of that unit.
pub fn length_of(unit: u8, whole: Whole) -> Count
    ensures { result ≡ length_of unit whole }
{
    match unit {
        b'0' => Count::Metre(Metre(whole, 3)),
        b'1' => Count::Feet(Feet(whole, 3)),
        b'6' => Count::Metre(Metre(whole, 4)),
        b'7' => Count::Feet(Feet(whole, 4)),
        b'9' => Count::Inch(Inch(whole)),
        _ => Count::Metre(Metre(whole, 5)),
    }
}

// Gives the count of a constant: 58 counts 1/10 mm, 59 counts 1/10,000 ppm.
pub fn constant_of(index: u16, whole: Whole) -> Count
    ensures { result ≡ constant_of index whole }
{
    if index == 58 {
        Count::Metre(Metre(whole, 4))
    } else {
        Count::Ppm(Ppm(whole))
    }
}

fn number_at(kind: Kind, index: u16, unit: u8, minus: u8, n: u64) -> Option<Count>
    ensures { result ≡ number_at kind index unit minus n }
{
    let whole = Whole { minus, size: n };
    match kind {
        Kind::Angle => angle_at(unit, minus, n),
        Kind::Length => Some(length_of(unit, whole)),
        Kind::Constant => Some(constant_of(index, whole)),
        _ => None,
    }
}

// Gives the count of a word of that kind, index and unit, with that sign before those figures; None for an angle out of its range.
pub fn value_at(kind: Kind, index: u16, unit: u8, minus: u8, figures: Figures) -> Option<Count>
    ensures { result ≡ value_at kind index unit minus figures }
{
    match figures {
        Figures::Text => Some(Count::Text),
        Figures::Number(n) => number_at(kind, index, unit, minus, n),
        Figures::Pair(ppm, under, mm) => Some(Count::Pair(
            Whole { minus, size: ppm },
            Whole {
                minus: under,
                size: mm,
            },
        )),
    }
}

// Gives the value that a record keeps of a count; it is 0 for text.
pub fn first_of(count: Count) -> Whole
    ensures { result ≡ first_of count }
{
    match count {
        Count::Nothing | Count::Text => Whole { minus: 0, size: 0 },
        Count::Gon(Gon(whole))
        | Count::Degree(Degree(whole))
        | Count::Tenth(Tenth(whole))
        | Count::Mil(Mil(whole))
        | Count::Metre(Metre(whole, _))
        | Count::Feet(Feet(whole, _))
        | Count::Inch(Inch(whole))
        | Count::Ppm(Ppm(whole)) => whole,
        Count::Pair(ppm, _) => ppm,
    }
}

// Gives the mm that a record keeps; they are 0 except for a pair.
pub fn second_of(count: Count) -> Whole
    ensures { result ≡ second_of count }
{
    match count {
        Count::Pair(_, mm) => mm,
        _ => Whole { minus: 0, size: 0 },
    }
}
