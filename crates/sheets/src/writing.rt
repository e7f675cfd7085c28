// The sheet written from an image, in either form: its length first, then line by line into the room, each put where the one before it ended.
ghost use Rattle.std.specs.Prelude.{◌≡◌, true, ◌++◌, ◌+◌, ◌-◌, ◌%◌, ◌≤◌, ◌<◌, length, take};
ghost use Rattle.figures.specs.Decimal.{digits_n, decimal_of};
ghost use Rattle.figures.specs.Rooms.{Fills};
ghost use Rattle.figures.specs.Text.{codes};
ghost use Rattle.instrument.specs.Settings.{settings_n};
ghost use Rattle.instrument.specs.Values.{values_n};
ghost use Rattle.state.specs.Image.{state_in};
ghost use Rattle.state.specs.Keeping.{Imaged};
ghost use Rattle.state.specs.Entries.{entry_right};
ghost use Rattle.sheets.specs.Sheet.{series_line, setting_lines};
ghost use Rattle.sheets.specs.Undo.{entry_line, undo_text};
ghost use Rattle.sheets.specs.Writing.{WritesSheet};
ghost use Rattle.sheets.specs.Keeping.{Fits, key_length, keys_n, settings_text, values_text, kept_text};

use crate::answers::{SheetRefusal, Sheeted};
use crate::forms::{Form, form_line};
use figures::rooms::Room;
use instrument::keys::{KEY, key_at};
use instrument::settings::{Series, settings_of};
use instrument::values::{Kept, VALUES, get_word, is_put, stored_at};
use state::entries::{Entry, Item};
use state::image::{count_in, entry_at, parameter_in, series_in, value_in};
use state::judging::is_image;

// The length of the first line, which names the series.
pub(crate) const HEAD: usize = 14;

// Gives the length of a row's key, which stands from the start of eight bytes.
pub(crate) fn key_length(key: [u8; KEY]) -> usize
    ensures { result ≡ key_length key }
{
    if key[4] != 0 {
        return 5;
    }
    if key[3] != 0 {
        return 4;
    }
    3
}

// Gives the line that names the series.
pub(crate) fn series_line(series: Series) -> [u8; HEAD]
    ensures { result ≡ series_line series }
{
    match series {
        Series::Tps100 => *b"series=TPS100\n",
        Series::Tps300 => *b"series=TPS300\n",
    }
}

// Counts the digits of a number of up to three.
pub(crate) fn digits_in(number: u64) -> usize
    requires { number < 1000 }
    ensures { (result ≡ digits_n number) × (result ≤ 3) }
{
    if number < 10 {
        return 1;
    }
    if number < 100 {
        return 2;
    }
    3
}

// Gives the length of the settings' lines without their parameters: key and LF, for numbers of two digits and of three.
fn keys_length(series: Series) -> usize
    ensures { result ≡ keys_n series }
{
    match series {
        Series::Tps100 => 15 * 5 + 4 * 6,
        Series::Tps300 => 16 * 5 + 14 * 6,
    }
}

// Gives the length of the settings' lines.
fn settings_length(series: Series, image: &[u8]) -> usize
    requires { Imaged series image.now }
    ensures { result ≡ length (settings_text (state_in image.now)) }
{
    let mut n = keys_length(series);
    for i in 0..settings_of(series) {
        n += digits_in(u64::from(parameter_in(i, image)));
    }
    n
}

// Gives the length of the values' lines: key and LF, and 15 characters where it was put.
fn values_length(series: Series, image: &[u8]) -> usize
    requires { Imaged series image.now }
    ensures { result ≡ length (values_text (state_in image.now)) }
{
    let mut n = 0;
    for i in 0..VALUES {
        n += if is_put(value_in(series, i, image)) {
            20
        } else {
            5
        };
    }
    n
}

// Gives the length of an entry's line: `u=`, the item's name, a colon, what was there before, LF.
fn entry_length(series: Series, entry: Entry) -> usize
    requires { entry_right series entry ≡ true }
    ensures long { result ≡ length (entry_line series entry) }
    ensures few { result ≤ 22 }
{
    match entry.item {
        Item::Free => 4,
        Item::Setting(i) => {
            let key = key_at(series, usize::from(i));
            key_length(key) + 3 + digits_in(u64::from(entry.former.parameter))
        }
        Item::Stored(_) if is_put(entry.former.kept) => 22,
        Item::Stored(_) => 7,
    }
}

// Gives the length of what follows the values' lines: nothing in the first form, the undo list in the second.
fn undo_length(form: Form, series: Series, image: &[u8]) -> usize
    requires { Imaged series image.now }
    ensures long { result ≡ length (undo_text form (state_in image.now)) }
    ensures few { result ≤ 2000 }
{
    if let Form::One = form {
        return 0;
    }
    let count = count_in(series, image);
    let mut n = 6 + digits_in(count as u64);
    for i in 0..count {
        n += entry_length(series, entry_at(series, i, image));
    }
    n
}

// Puts a text that fits. It is laid into just as many bytes, so that the compiler knows how many it copies.
fn lay_text(room: &mut Room, text: &[u8])
    requires { Fits room.old text.now }
    ensures { Fills room.old text.now room.new }
{
    let end = room.at + text.len();
    figures::lay(text, &mut room.bytes[room.at..end]);
    room.at = end;
}

fn figure(n: u16) -> u8
    ensures { result ≡ 48 + n % 10 }
{
    b'0' + (n % 10) as u8
}

// Puts a setting's key, of four or five bytes.
fn put_key(key: [u8; KEY], room: &mut Room)
    requires long { 4 ≤ key_length key }
    requires fits { Fits room.old (take (key_length key) key) }
    ensures { Fills room.old (take (key_length key) key) room.new }
{
    if key[4] != 0 {
        lay_text(room, &key[..5]);
    } else {
        lay_text(room, &key[..4]);
    }
}

// Puts a parameter in its fewest digits and LF.
fn put_parameter(parameter: u16, room: &mut Room)
    requires small { parameter < 1000 }
    requires fits { Fits room.old (decimal_of parameter ++ codes "\n") }
    ensures { Fills room.old (decimal_of parameter ++ codes "\n") room.new }
{
    let ones = figure(parameter);
    let tens = figure(parameter / 10);
    if parameter < 10 {
        lay_text(room, &[ones, b'\n']);
    } else if parameter < 100 {
        lay_text(room, &[tens, ones, b'\n']);
    } else {
        lay_text(room, &[figure(parameter / 100), tens, ones, b'\n']);
    }
}

// Puts the line of the setting at a place.
fn put_setting(series: Series, place: usize, parameter: u8, room: &mut Room)
    requires place { place < settings_n series }
    requires fits { Fits room.old ((setting_lines series).write place parameter) }
    ensures { Fills room.old ((setting_lines series).write place parameter) room.new }
{
    put_key(key_at(series, place), room);
    put_parameter(u16::from(parameter), room);
}

// Puts a value's name, the separator, the characters if it was put, and LF.
fn put_kept(place: usize, separator: u8, kept: Kept, room: &mut Room)
    requires place { place < values_n }
    requires fits { Fits room.old (kept_text place separator kept) }
    ensures { Fills room.old (kept_text place separator kept) room.new }
{
    let k = stored_at(place).key;
    if is_put(kept) {
        let w = get_word(place, kept);
        let line = [
            k[0], k[1], k[2], separator, w[0], w[1], w[2], w[3], w[4], w[5], w[6], w[7], w[8],
            w[9], w[10], w[11], w[12], w[13], w[14], b'\n',
        ];
        lay_text(room, &line);
    } else {
        lay_text(room, &[k[0], k[1], k[2], separator, b'\n']);
    }
}

// Puts a setting's name, of three or four bytes, after `u=`, and a colon.
fn put_name(key: [u8; KEY], room: &mut Room)
    requires long { 4 ≤ key_length key }
    requires fits { Fits room.old (codes "u=" ++ (take (key_length key - 1) key ++ codes ":")) }
    ensures { Fills room.old (codes "u=" ++ (take (key_length key - 1) key ++ codes ":")) room.new }
{
    if key[4] != 0 {
        lay_text(room, &[b'u', b'=', key[0], key[1], key[2], key[3], b':']);
    } else {
        lay_text(room, &[b'u', b'=', key[0], key[1], key[2], b':']);
    }
}

// Puts an entry's line.
fn put_entry(series: Series, entry: Entry, room: &mut Room)
    requires right { entry_right series entry ≡ true }
    requires fits { Fits room.old (entry_line series entry) }
    ensures { Fills room.old (entry_line series entry) room.new }
{
    let Entry { item, former } = entry;
    match item {
        Item::Free => lay_text(room, b"u=:\n"),
        Item::Setting(i) => {
            put_name(key_at(series, usize::from(i)), room);
            put_parameter(u16::from(former.parameter), room);
        }
        Item::Stored(i) => {
            lay_text(room, b"u=");
            put_kept(usize::from(i), b':', former.kept, room);
        }
    }
}

// Puts the settings' lines.
fn put_settings(series: Series, image: &[u8], room: &mut Room)
    requires image { Imaged series image.now }
    requires fits { Fits room.old (settings_text (state_in image.now)) }
    ensures { Fills room.old (settings_text (state_in image.now)) room.new }
{
    for i in 0..settings_of(series) {
        put_setting(series, i, parameter_in(i, image), room);
    }
}

// Puts the values' lines: each has its name and what was put, with `=` between.
fn put_values(series: Series, image: &[u8], room: &mut Room)
    requires image { Imaged series image.now }
    requires fits { Fits room.old (values_text (state_in image.now)) }
    ensures { Fills room.old (values_text (state_in image.now)) room.new }
{
    for i in 0..VALUES {
        put_kept(i, b'=', value_in(series, i, image), room);
    }
}

// Puts what follows the values' lines, in a form.
fn put_undo(form: Form, series: Series, image: &[u8], room: &mut Room)
    requires image { Imaged series image.now }
    requires fits { Fits room.old (undo_text form (state_in image.now)) }
    ensures { Fills room.old (undo_text form (state_in image.now)) room.new }
{
    if let Form::One = form {
        return;
    }
    let count = count_in(series, image);
    lay_text(room, b"undo=");
    put_parameter(count as u16, room);
    for i in 0..count {
        put_entry(series, entry_at(series, i, image), room);
    }
}

// Writes the sheet of an image of the series: straight into the room, once its length is known to fit.
fn write_as(form: Form, series: Series, image: &[u8], room: &mut [u8]) -> Sheeted
    requires { Imaged series image.now }
    ensures { WritesSheet form image.now room.old result room.new }
{
    let named = form_line(form);
    let lines = HEAD + settings_length(series, image) + values_length(series, image);
    let n = named.len() + lines + undo_length(form, series, image);
    if room.len() < n {
        return Err(SheetRefusal::Room);
    }
    let mut sheet = Room::new(room);
    lay_text(&mut sheet, named);
    lay_text(&mut sheet, &series_line(series));
    put_settings(series, image, &mut sheet);
    put_values(series, image, &mut sheet);
    put_undo(form, series, image, &mut sheet);
    Ok(n)
}

// Writes the sheet of a lent image in a form into the room. 31 and 30 leave the room as it was; room beyond the sheet is untouched.
pub fn write(form: Form, image: &[u8], room: &mut [u8]) -> Sheeted
    ensures { WritesSheet form image.now room.old result room.new }
{
    if !is_image(image) {
        return Err(SheetRefusal::NoState);
    }
    write_as(form, series_in(image), image, room)
}
