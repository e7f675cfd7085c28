// A sheet loaded into a lent image: the first form's lines, and what both forms share.
ghost use Rattle.std.specs.Prelude.{◌≡◌, ◌≤◌, ◌<◌, length, drop, IfSome};
ghost use Rattle.state.specs.Entries.{entries_n};
ghost use Rattle.state.specs.Keeping.{Imaged};
ghost use Rattle.instrument.specs.Settings.{settings_n};
ghost use Rattle.instrument.specs.Values.{values_n, put_kept};
ghost use Rattle.units.specs.Information.{sign_of};
ghost use Rattle.sheets.specs.Loading.{settings_in, values_from, first_lines, Loads};
ghost use Rattle.sheets.specs.Keeping.{said_of, number_taken, setting_taken, put_stands, value_taken, settings_as, values_as, first_as, undo_laid};

use crate::answers::SheetRefusal;
use crate::forms::{Form, form_in, form_line};
use crate::undo::list_in;
use crate::writing::{HEAD, digits_in, key_length, series_line};
use instrument::keys::key_at;
use instrument::settings::{SETTINGS, Series, in_range, row_at, settings_of};
use instrument::values::{Kept, Put, VALUES, parts_right, stored_at};
use state::entries::{ENTRIES, Entry, blank_entry};
use state::image::series_in;
use state::judging::is_image;
use state::laying::{clear, put_contents, put_count, put_entry};
use units::information::sign_byte;

// What was taken of a sheet, and the place past it.
#[derive(Clone, Copy)]
pub struct Taken<T> {
    pub to: usize,
    pub held: T,
}

// What the first form's lines hold, and the place past them.
#[derive(Clone, Copy)]
pub struct First {
    pub to: usize,
    pub settings: [u8; SETTINGS],
    pub values: [Kept; VALUES],
}

// What the digits at the start of some bytes say, three at most, and how many they are.
#[derive(Clone, Copy)]
pub struct Digits {
    pub number: u64,
    pub digits: usize,
}

// Reads the digits from a place on, three at most.
pub(crate) fn said_at(s: &[u8], start: usize) -> Digits
    requires { start ≤ length s.now }
    ensures said { result ≡ said_of (drop start s.now) }
    ensures small { result.number < 1000 }
    ensures few { result.digits ≤ 3 }
{
    let mut number = 0;
    for i in 0..3 {
        let at = start + i;
        if s.len() <= at || !figures::digit(s[at]) {
            return Digits { number, digits: i };
        }
        number = number * 10 + u64::from(s[at] - b'0');
    }
    Digits { number, digits: 3 }
}

// Takes a number in its fewest digits, three at most, and LF from a place on.
pub(crate) fn number_line(s: &[u8], start: usize) -> Option<Taken<u64>>
    requires { start ≤ length s.now }
    ensures taken { result ≡ number_taken (drop start s.now) }
    ensures small { IfSome result (λ line. line.held < 1000) }
    ensures few { IfSome result (λ line. line.to ≤ 4) }
{
    let Digits { number, digits } = said_at(s, start);
    if digits != digits_in(number) {
        return None;
    }
    let end = start + digits;
    if s.len() <= end || s[end] != b'\n' {
        return None;
    }
    Some(Taken {
        to: digits + 1,
        held: number,
    })
}

// Takes the line of the setting at a place from the start of the bytes: its key, a parameter that it has in its fewest digits, LF.
fn take_setting(series: Series, place: usize, s: &[u8]) -> Option<Taken<u8>>
    requires { place < settings_n series }
    ensures { result ≡ setting_taken series place s.now }
{
    let key = key_at(series, place);
    let k = key_length(key);
    if !figures::starts(s, &key[..k]) {
        return None;
    }
    let line = number_line(s, k)?;
    if !in_range(row_at(series, place), line.held) {
        return None;
    }
    Some(Taken {
        to: k + line.to,
        held: line.held as u8,
    })
}

// Gives what a sign says: 0 for a plus, 1 for a minus.
fn sign_of(b: u8) -> u8
    ensures { result ≡ sign_of b }
{
    u8::from(b != b'+')
}

// Tells whether what follows a value's key, from the fifth byte on, is the 15 characters that GET gives, with parts that the place may hold, and LF.
pub(crate) fn put_stands(place: usize, s: &[u8]) -> bool
    requires { (place < values_n) × (20 ≤ length s.now) }
    ensures { result ≡ put_stands place s.now }
{
    let row = stored_at(place);
    let mark = if row.first == b'.' { b'.' } else { b'1' };
    let minus = sign_of(s[10]);
    let sign = sign_byte(minus);
    if [s[4], s[5], s[6], s[7], s[8], s[10], s[19]]
        != [row.key[1], row.key[2], b'.', b'.', mark, sign, b'\n']
    {
        return false;
    }
    let parts = [
        s[9], minus, s[11], s[12], s[13], s[14], s[15], s[16], s[17], s[18],
    ];
    parts_right(place, &parts)
}

// Gives the value that those characters hold.
pub(crate) fn put_at(s: &[u8]) -> Kept
    requires { 20 ≤ length s.now }
    ensures { result ≡ put_kept (drop 4 s.now) }
{
    Some(Put {
        unit: s[9],
        minus: sign_of(s[10]),
        eight: [s[11], s[12], s[13], s[14], s[15], s[16], s[17], s[18]],
    })
}

// Takes the line of the value at a place from the start of the bytes: its key, and LF or what was put.
fn take_value(place: usize, s: &[u8]) -> Option<Taken<Kept>>
    requires { place < values_n }
    ensures { result ≡ value_taken place s.now }
{
    let key = stored_at(place).key;
    if !figures::starts(s, &key[..4]) || s.len() < 5 {
        return None;
    }
    if s[4] == b'\n' {
        return Some(Taken { to: 5, held: None });
    }
    if s.len() < 20 || !put_stands(place, s) {
        return None;
    }
    Some(Taken {
        to: 20,
        held: put_at(s),
    })
}

// Reads the series and the settings' lines, from a place on.
fn settings_in(
    series: Series,
    sheet: &[u8],
    start: usize,
) -> Result<Taken<[u8; SETTINGS]>, SheetRefusal>
    requires { start ≤ length sheet.now }
    ensures { result ≡ settings_as (settings_in series sheet.now start) }
{
    if !figures::starts(&sheet[start..], &series_line(series)) {
        return Err(SheetRefusal::Wrong(start));
    }
    let mut held = [0; SETTINGS];
    let mut to = start + HEAD;
    for i in 0..settings_of(series) {
        let line = take_setting(series, i, &sheet[to..]).ok_or(SheetRefusal::Wrong(to))?;
        held[i] = line.held;
        to += line.to;
    }
    Ok(Taken { to, held })
}

// Reads the values' lines, from a place on.
fn values_in(sheet: &[u8], start: usize) -> Result<Taken<[Kept; VALUES]>, SheetRefusal>
    requires { start ≤ length sheet.now }
    ensures { result ≡ values_as (values_from sheet.now start) }
{
    let mut held = [None; VALUES];
    let mut to = start;
    for i in 0..VALUES {
        let line = take_value(i, &sheet[to..]).ok_or(SheetRefusal::Wrong(to))?;
        held[i] = line.held;
        to += line.to;
    }
    Ok(Taken { to, held })
}

// Reads the first form's lines in a sheet of a form.
fn first_in(form: Form, series: Series, sheet: &[u8]) -> Result<First, SheetRefusal>
    ensures { result ≡ first_as (first_lines form series sheet.now) }
{
    let named = form_line(form);
    if !figures::starts(sheet, named) {
        return Err(SheetRefusal::Wrong(0));
    }
    let Taken { to, held: settings } = settings_in(series, sheet, named.len())?;
    let Taken { to, held: values } = values_in(sheet, to)?;
    Ok(First {
        to,
        settings,
        values,
    })
}

// Lays undo entries down in an image that has none.
fn put_undo(series: Series, entries: &[Entry; ENTRIES], count: usize, image: &mut [u8])
    requires { count ≤ entries_n }
    ensures { image.new ≡ undo_laid series entries.now count image.old }
{
    for i in 0..count {
        put_entry(series, i, entries[i], image);
    }
    put_count(series, count, image);
}

// Loads a sheet of the series into an image of it.
fn load_as(series: Series, image: &mut [u8], sheet: &[u8]) -> Result<(), SheetRefusal>
    requires { Imaged series image.old }
    ensures { Loads image.old sheet.now result image.new }
{
    let form = form_in(sheet);
    let first = first_in(form, series, sheet)?;
    match form {
        Form::One => {
            if sheet.len() != first.to {
                return Err(SheetRefusal::Wrong(first.to));
            }
            put_contents(series, first.settings, first.values, image);
            clear(series, image);
        }
        Form::Two => {
            let mut entries = [blank_entry(); ENTRIES];
            let count = list_in(series, &first, sheet, &mut entries)?;
            put_contents(series, first.settings, first.values, image);
            clear(series, image);
            put_undo(series, &entries, count, image);
        }
    }
    Ok(())
}

// Loads a sheet of the image's series, of either form, into it: settings, values and undo list are then those it names, and in the first form it names none.
// 31 and 40 leave the image as it was.
pub fn load(image: &mut [u8], sheet: &[u8]) -> Result<(), SheetRefusal>
    ensures { Loads image.old sheet.now result image.new }
{
    if !is_image(image) {
        return Err(SheetRefusal::NoState);
    }
    load_as(series_in(image), image, sheet)
}
