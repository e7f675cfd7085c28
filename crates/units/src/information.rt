// Positions 3-7 of a word: the information and the sign.
ghost use Rattle.std.specs.Prelude.{◌≡◌, ◌≤◌};
ghost use Rattle.units.specs.Information.{is_dot, is_mode, is_dot_or_digit, is_angle_mark, is_angle_unit, is_length_unit};
ghost use Rattle.units.specs.Information.{is_flag, is_level_mode, is_level_unit, is_lead};
ghost use Rattle.units.specs.declared.kinds.Kind as Kind;
ghost use Rattle.units.specs.Information.{all_right, first_wrong, lead_of, sign_byte, sign_at};
ghost use Rattle.units.specs.Information.{numbered_marks_in, station_marks_in, level_marks_in, info_marks_in, info_right_in};

use crate::kinds::{Family, Kind, textual};

// Whether each of positions 3-6 is right.
#[derive(Clone, Copy)]
pub struct Marks(pub bool, pub bool, pub bool, pub bool);

impl Marks {
    // Tells whether all four are right.
    fn all(self) -> bool
        ensures { result ≡ all_right self }
    {
        self.0 & self.1 & self.2 & self.3
    }

    // Gives the first that isn't right, from 0; it is the last where the first three are.
    fn first_wrong(self) -> usize
        ensures { (result ≡ first_wrong self) × (result ≤ 3) }
    {
        match self {
            Marks(false, _, _, _) => 0,
            Marks(_, false, _, _) => 1,
            Marks(_, _, false, _) => 2,
            _ => 3,
        }
    }
}

fn dot(b: u8) -> bool
    ensures { result ≡ is_dot b }
{
    b == b'.'
}

// Tells whether the byte is a dot or a digit.
fn free(b: u8) -> bool
    ensures { result ≡ is_dot_or_digit b }
{
    b == b'.' || figures::digit(b)
}

// Tells whether the byte is a mode: a dot or 0-4.
fn mode(b: u8) -> bool
    ensures { result ≡ is_mode b }
{
    matches!(b, b'.' | b'0'..=b'4')
}

// Tells whether an angle can have the byte at position 4: a dot, 0, 1 or 3.
#[tactic(auto, unfolding(figures::specs::Bytes::among))]
fn angle_mark(b: u8) -> bool
    ensures { result ≡ is_angle_mark b }
{
    matches!(b, b'.' | b'0' | b'1' | b'3')
}

// Tells whether an angle can have the byte at position 6: 2-5.
fn angle_unit(b: u8) -> bool
    ensures { result ≡ is_angle_unit b }
{
    matches!(b, b'2'..=b'5')
}

// Tells whether a length can have the byte at position 6: 0, 1, 6, 7 or 8.
#[tactic(auto, unfolding(figures::specs::Bytes::among))]
fn length_unit(b: u8) -> bool
    ensures { result ≡ is_length_unit b }
{
    matches!(b, b'0' | b'1' | b'6' | b'7' | b'8')
}

// Tells whether a level's number can have the byte at position 4: a dot, or 1 for the compensator's flag.
#[tactic(auto, unfolding(figures::specs::Bytes::among))]
fn flag(b: u8) -> bool
    ensures { result ≡ is_flag b }
{
    matches!(b, b'.' | b'1')
}

// Tells whether a level's number can have the byte at position 5: a dot, 0-2 or 4-7.
fn level_mode(b: u8) -> bool
    ensures { result ≡ is_level_mode b }
{
    matches!(b, b'.' | b'0'..=b'2' | b'4'..=b'7')
}

// Tells whether a level's number can have the byte at position 6: 0, 1 or 6-9.
fn level_unit(b: u8) -> bool
    ensures { result ≡ is_level_unit b }
{
    matches!(b, b'0'..=b'1' | b'6'..=b'9')
}

// Tells whether a level's information can start with the byte: a dot after two digits, 0 after three.
fn lead(index: u16, b: u8) -> bool
    ensures { result ≡ is_lead index b }
{
    if index < 100 { b == b'.' } else { b == 0 }
}

// Judges four digits or four dots, as the first byte chooses.
fn numbered(info: [u8; 4]) -> Marks
    ensures { result ≡ numbered_marks_in info }
{
    let [a, b, c, d] = info;
    if figures::digit(a) {
        Marks(
            true,
            figures::digit(b),
            figures::digit(c),
            figures::digit(d),
        )
    } else {
        Marks(dot(a), dot(b), dot(c), dot(d))
    }
}

// Judges the information of a total station's word of that kind, and gives what is made of the marks: made of them in each arm, it costs no more than the
// arm's own tests (docs/BENCHMARK.md).
#[inline(always)]
fn station_by<T, F: FnOnce(Marks) -> T>(kind: Kind, info: [u8; 4], made: F) -> T
    requires { F.pre made (station_marks_in kind info) }
    ensures { F.post made (station_marks_in kind info) result }
{
    let [a, b, c, d] = info;
    match kind {
        Kind::Missing => made(Marks(false, false, false, false)),
        Kind::Numbered => made(numbered(info)),
        Kind::Text => made(Marks(dot(a), free(b), free(c), free(d))),
        Kind::Angle => made(Marks(dot(a), angle_mark(b), mode(c), angle_unit(d))),
        Kind::Length => made(Marks(dot(a), dot(b), mode(c), length_unit(d))),
        Kind::Constant => made(Marks(dot(a), dot(b), mode(c), d == b'6')),
        Kind::Pair => made(Marks(dot(a), dot(b), mode(c), dot(d))),
    }
}

// Judges the information of a level's word of that index and kind likewise.
#[inline(always)]
fn level_by<T, F: FnOnce(Marks) -> T>(index: u16, kind: Kind, info: [u8; 4], made: F) -> T
    requires { F.pre made (level_marks_in index kind info) }
    ensures { F.post made (level_marks_in index kind info) result }
{
    let [a, b, c, d] = info;
    match kind {
        Kind::Numbered => made(numbered(info)),
        Kind::Text => made(Marks(lead(index, a), free(b), free(c), free(d))),
        Kind::Length => made(Marks(lead(index, a), flag(b), level_mode(c), level_unit(d))),
        _ => made(Marks(false, false, false, false)),
    }
}

#[inline(always)]
fn info_by<T, F: FnOnce(Marks) -> T>(
    family: Family,
    index: u16,
    kind: Kind,
    info: [u8; 4],
    made: F,
) -> T
    requires { F.pre made (info_marks_in family index kind info) }
    ensures { F.post made (info_marks_in family index kind info) result }
{
    match family {
        Family::Station => station_by(kind, info, made),
        Family::Level => level_by(index, kind, info, made),
    }
}

// Tells whether a word or a record of that index and kind can have the information. The reader and the writer ask it of each, so it is compiled in place
// (docs/BENCHMARK.md).
#[inline(always)]
pub fn info_right(family: Family, index: u16, kind: Kind, info: [u8; 4]) -> bool
    ensures { result ≡ info_right_in family index kind info }
{
    info_by(family, index, kind, info, |m| m.all())
}

// Tells which of the four, from 0, is the first that a word of that index and kind can't have.
pub fn info_at(family: Family, index: u16, kind: Kind, info: [u8; 4]) -> usize
    ensures { (result ≡ first_wrong (info_marks_in family index kind info)) × (result ≤ 3) }
{
    info_by(family, index, kind, info, |m| m.first_wrong())
}

// Gives position 3 as the information has it: 0 where it belongs to the index.
pub fn lead_of(index: u16, third: u8) -> u8
    ensures { result ≡ lead_of index third }
{
    if index < 100 { third } else { 0 }
}

// Gives the byte of a sign.
pub fn sign_byte(minus: u8) -> u8
    ensures { result ≡ sign_byte minus }
{
    if minus == 0 { b'+' } else { b'-' }
}

// Reads the sign at position 7 of a word of that kind: 0 for a plus, 1 for a minus. Text has a plus only.
pub fn sign_at(kind: Kind, b: u8) -> Option<u8>
    ensures { result ≡ sign_at kind b }
{
    match b {
        b'+' => Some(0),
        b'-' if !textual(kind) => Some(1),
        _ => None,
    }
}
