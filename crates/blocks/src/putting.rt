// The word of a record that is right, put where it belongs: nothing is judged here once more.
ghost use Rattle.std.specs.Prelude.{◌≡◌, true, ◌≤◌, ◌<◌, ◌^◌, length, take};
ghost use Rattle.figures.specs.Bytes.{laid};
ghost use Rattle.units.specs.Counts.{figures_of};
ghost use Rattle.units.specs.Information.{head_of};
ghost use Rattle.words.specs.Records.{width, count_of, is_right};
ghost use Rattle.words.specs.Reading.{word_size};
ghost use Rattle.words.specs.Writing.{data_of, bytes_of};
ghost use Rattle.blocks.specs.Keeping.{figures_by, pair_bytes};

use crate::digits::put_digits;
use crate::taking::kind_in;
use units::information::sign_byte;
use units::kinds::{Family, Kind};
use words::reading::width_of;
use words::records::Word;

// Puts positions 1-6.
fn put_head(index: u16, info: [u8; 4], out: &mut [u8])
    requires { length out.old ≡ 6 }
    ensures { out.new ≡ head_of index info }
{
    if index < 100 {
        figures::put_number(u64::from(index), &mut out[..2]);
        out[2] = info[0];
    } else {
        figures::put_number(u64::from(index), &mut out[..3]);
    }
    out[3] = info[1];
    out[4] = info[2];
    out[5] = info[3];
}

// Gives the figures of a record with one number: degrees, minutes, seconds and tenths for an angle whose unit is 4.
fn figures_in(kind: Kind, unit: u8, n: u64) -> u64
    requires { n < 10 ^ 16 }
    ensures { result ≡ figures_by kind unit n }
{
    if kind == Kind::Angle && unit == b'4' {
        return n / 36_000 * 100_000 + n / 600 % 60 * 1_000 + n / 10 % 60 * 10 + n % 10;
    }
    n
}

// Puts a pair: ppm, a sign, three digits of mm.
fn put_pair(ppm: u64, under: u8, mm: u64, out: &mut [u8])
    requires { 4 ≤ length out.old }
    ensures { out.new ≡ pair_bytes (length out.old) ppm under mm }
{
    let at = out.len() - 4;
    figures::put_number(ppm, &mut out[..at]);
    out[at] = sign_byte(under);
    figures::put_number(mm, &mut out[at + 1..]);
}

// Puts as much of a text as a word of the width has.
fn put_text(text: [u8; 16], wide: bool, out: &mut [u8])
    requires { length out.old ≡ width wide }
    ensures { out.new ≡ take (width wide) text }
{
    figures::lay(&text[..8], &mut out[..8]);
    if wide {
        figures::lay(&text[8..], &mut out[8..16]);
    }
}

// Puts the data of a record that a word of the family and width gives.
fn put_data(w: Word, family: Family, wide: bool, out: &mut [u8])
    requires { (is_right family wide w ≡ true) × (length out.old ≡ width wide) }
    ensures { out.new ≡ data_of (width wide) (figures_of (count_of family w)) w.text }
{
    let kind = kind_in(family, w.index);
    match kind {
        Kind::Angle | Kind::Length | Kind::Constant => put_digits(
            figures_in(kind, w.info[3], w.size),
            wide,
            out,
        ),
        Kind::Pair => put_pair(w.size, w.mmminus, w.mm, out),
        _ => put_text(w.text, wide, out),
    }
}

// Puts the word of the family and width that gives the record, from the start of the room.
pub(crate) fn put_word(w: Word, family: Family, wide: bool, out: &mut [u8])
    requires { (is_right family wide w ≡ true) × (word_size wide ≤ length out.old) }
    ensures { out.new ≡ laid (bytes_of family wide w) out.old }
{
    let end = 7 + width_of(wide);
    put_head(w.index, w.info, &mut out[0..6]);
    out[6] = sign_byte(w.minus);
    put_data(w, family, wide, &mut out[7..end]);
    out[end] = b' ';
}
