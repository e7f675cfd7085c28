// A word as people read it: its index and information, and its count, its step, and the value with its unit's decimals.
#![tactic(auto)]

ghost use Rattle.std.specs.Prelude.{◌≡◌, ◌<◌, ◌≤◌, ◌++◌};
ghost use Rattle.figures.specs.Decimal.{digits_of};
ghost use Rattle.figures.specs.Rooms.{Fills};
ghost use Rattle.measures.specs.Measures.{index_text, decimals_of, power_of, places_of, last_of, unit_text, signed_of, start_text};
ghost use Rattle.measures.specs.Measures.{reads_key, reads_text, part_text, measure_text, tenth_text, pair_text, keyed_text, shown_of, shown_text, value_text};

use figures::put_number;
use figures::rooms::Room;
use units::counts::{Count, Whole};
use units::information::sign_byte;
use units::kinds::Family;
use words::reading::width_of;
use words::records::{Word, count};

// A count's step: the last of so many decimals of its unit; or half of the third, 1/2000, which is shown with four.
#[derive(Clone, Copy, PartialEq, Eq)]
pub enum Step {
    One,
    Three,
    Four,
    Five,
    Half,
}

// The unit that a value is shown in.
#[derive(Clone, Copy, PartialEq, Eq)]
pub enum Unit {
    Gon,
    Degree,
    Mil,
    Millimetre,
    Metre,
    Feet,
    Inch,
    Ppm,
}

// What is shown of a word. A number is its sign and its size, so that no function below has a count's type to carry.
#[derive(Clone, Copy, PartialEq, Eq)]
pub enum Shown {
    Nothing,
    Text,
    Measure(Whole, Step, Unit),
    Tenths(Whole),
    Pair(Whole, Whole),
}

impl Step {
    // Gives the step of a metre or a foot with so many decimals.
    fn of_decimals(n: u8) -> Step
        ensures { result ≡ decimals_of n }
    {
        match n {
            3 => Step::Three,
            4 => Step::Four,
            _ => Step::Five,
        }
    }

    // Tells how many steps make one of the unit.
    fn power(self) -> u64
        ensures { (result ≡ power_of self) × (0 < result) }
    {
        match self {
            Step::One => 10,
            Step::Three => 1_000,
            Step::Four => 10_000,
            Step::Five => 100_000,
            Step::Half => 2_000,
        }
    }

    // Tells how many decimals are shown.
    fn places(self) -> usize
        ensures { (result ≡ places_of self) × (result ≤ 20) }
    {
        match self {
            Step::One => 1,
            Step::Three => 3,
            Step::Four | Step::Half => 4,
            Step::Five => 5,
        }
    }

    // Gives the number that ends in the decimals of a count n.
    fn last(self, n: u64) -> u64
        ensures { result ≡ last_of self n }
    {
        match self {
            Step::Half => n % 2_000 * 5,
            _ => n,
        }
    }
}

impl Unit {
    // Gives the unit's name.
    fn name(self) -> &'static [u8]
        ensures { result.now ≡ unit_text self }
    {
        match self {
            Unit::Gon => b"gon",
            Unit::Degree => b"deg",
            Unit::Mil => b"mil",
            Unit::Millimetre => b"mm",
            Unit::Metre => b"m",
            Unit::Feet => b"ft",
            Unit::Inch => b"in",
            Unit::Ppm => b"ppm",
        }
    }
}

// Puts the last k digits of n.
fn put_digits(room: &mut Room, n: u64, k: usize)
    requires { k ≤ 20 }
    ensures { Fills room.old (digits_of k n) room.new }
{
    let mut bytes = [0; 20];
    put_number(n, &mut bytes[..k]);
    room.put(&bytes[..k]);
}

// Puts index and information as positions 1-6 have them.
pub fn put_index(room: &mut Room, index: u16, info: [u8; 4])
    ensures { Fills room.old (index_text index info) room.new }
{
    let (digits, rest) = if index < 100 {
        (2, &info[..])
    } else {
        (3, &info[1..])
    };
    put_digits(room, u64::from(index), digits);
    room.put(b" info=");
    room.put(rest);
}

// Puts a key, and a whole number with its sign.
fn put_whole(room: &mut Room, key: &[u8], n: Whole)
    ensures { Fills room.old (key.now ++ signed_of n.minus n.size) room.new }
{
    room.put(key);
    room.put(&[sign_byte(n.minus)]);
    room.put_decimal(n.size);
}

// Puts a count, up to the number of its step.
fn put_count(room: &mut Room, n: Whole)
    ensures { Fills room.old (start_text n.minus n.size) room.new }
{
    put_whole(room, b" count=", n);
    room.put(b" step=1/");
}

// Gives the key of a value, with a minus where there is one.
fn reads_key(minus: u8) -> &'static [u8]
    ensures { result.now ≡ reads_key minus }
{
    if minus == 0 { b" reads=" } else { b" reads=-" }
}

// Puts the value up to its decimals.
fn put_reads(room: &mut Room, minus: u8, n: u64)
    ensures { Fills room.old (reads_text minus n) room.new }
{
    room.put(reads_key(minus));
    room.put_decimal(n);
}

// Puts a mark, and the last k digits of n.
fn put_part(room: &mut Room, mark: u8, n: u64, k: usize)
    requires { k ≤ 20 }
    ensures { Fills room.old (part_text mark k n) room.new }
{
    room.put(&[mark]);
    put_digits(room, n, k);
}

// Puts a count of a unit's steps.
fn put_measure(room: &mut Room, n: Whole, step: Step, unit: Unit)
    ensures { Fills room.old (measure_text n.minus n.size step unit) room.new }
{
    put_count(room, n);
    room.put_decimal(step.power());
    room.put(unit.name());
    put_reads(room, n.minus, n.size / step.power());
    put_part(room, b'.', step.last(n.size), step.places());
    room.put(unit.name());
}

// Puts a count of tenths of a second, as degrees, minutes, seconds and tenths.
fn put_tenths(room: &mut Room, n: Whole)
    ensures { Fills room.old (tenth_text n.minus n.size) room.new }
{
    let tenths = n.size;
    put_count(room, n);
    room.put(b"10s");
    put_reads(room, n.minus, tenths / 36_000);
    put_part(room, b'-', tenths / 600 % 60, 2);
    put_part(room, b'-', tenths / 10 % 60, 2);
    put_part(room, b'.', tenths % 10, 1);
}

fn put_pair(room: &mut Room, ppm: Whole, mm: Whole)
    ensures { Fills room.old (pair_text ppm.minus ppm.size mm.minus mm.size) room.new }
{
    put_whole(room, b" ppm=", ppm);
    put_whole(room, b" mm=", mm);
}

// Puts text, 8 or 16 characters.
fn put_text(room: &mut Room, text: [u8; 16], wide: bool)
    ensures { Fills room.old (keyed_text wide text) room.new }
{
    room.put(b" text=");
    room.put(&text[..width_of(wide)]);
}

// Gives what is shown of a count; 58 counts 1/10 mm.
fn shown_of(counted: Count, index: u16) -> Shown
    ensures { result ≡ shown_of index counted }
{
    match counted {
        Count::Nothing => Shown::Nothing,
        Count::Text => Shown::Text,
        Count::Gon(c) => Shown::Measure(c.0, Step::Five, Unit::Gon),
        Count::Degree(c) => Shown::Measure(c.0, Step::Five, Unit::Degree),
        Count::Tenth(c) => Shown::Tenths(c.0),
        Count::Mil(c) => Shown::Measure(c.0, Step::Four, Unit::Mil),
        Count::Metre(c) if index == 58 => Shown::Measure(c.0, Step::One, Unit::Millimetre),
        Count::Metre(c) => Shown::Measure(c.0, Step::of_decimals(c.1), Unit::Metre),
        Count::Feet(c) => Shown::Measure(c.0, Step::of_decimals(c.1), Unit::Feet),
        Count::Inch(c) => Shown::Measure(c.0, Step::Half, Unit::Inch),
        Count::Ppm(c) => Shown::Measure(c.0, Step::Four, Unit::Ppm),
        Count::Pair(ppm, mm) => Shown::Pair(ppm, mm),
    }
}

fn put_shown(room: &mut Room, shown: Shown, text: [u8; 16], wide: bool)
    ensures { Fills room.old (shown_text wide text shown) room.new }
{
    match shown {
        Shown::Nothing => room.put(b""),
        Shown::Text => put_text(room, text, wide),
        Shown::Measure(n, step, unit) => put_measure(room, n, step, unit),
        Shown::Tenths(n) => put_tenths(room, n),
        Shown::Pair(ppm, mm) => put_pair(room, ppm, mm),
    }
}

// Puts what a record of a right word of the family counts, and nothing for any other record.
pub fn put_value(room: &mut Room, w: Word, family: Family, wide: bool)
    ensures { Fills room.old (value_text family wide w) room.new }
{
    put_shown(room, shown_of(count(w, family), w.index), w.text, wide);
}
