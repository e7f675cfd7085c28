// The image: a state as the bytes that a host lends (docs/IMAGE.md); its size, and what is read at its places.
ghost use Rattle.std.specs.Prelude.{◌≡◌, ◌≤◌, ◌+◌, length, get_or};
ghost use Rattle.state.specs.Image.{form_of, values_at, value_n, entry_n, image_n, kept_in, entry_in, series_in};
ghost use Rattle.state.specs.Keeping.{count_in, stored_in, entry_at, values_read, entries_read, state_of};

use crate::entries::{ENTRIES, Entry, Former, Item, State, blank_entry};
use instrument::settings::{SETTINGS, Series, settings_of};
use instrument::tps100::SETTINGS_100;
use instrument::values::{Kept, Put, VALUES};

// The bytes of a value, and of an entry.
pub(crate) const VALUE: usize = 11;

pub(crate) const ENTRY: usize = 14;

// Where count and entries lie after the values' start.
pub const COUNT_AT: usize = VALUES * VALUE;

pub const ENTRIES_AT: usize = COUNT_AT + 2;

// What follows the settings: values, count and entries.
pub const REST: usize = ENTRIES_AT + ENTRIES * ENTRY;

// A TPS100's image, and a TPS300's, the longest.
pub const IMAGE_100: usize = 1 + SETTINGS_100 + REST;

pub const IMAGE_300: usize = 1 + SETTINGS + REST;

// Gives the first byte: the series in its high four bits, form 1 in its low four.
pub(crate) fn form_of(series: Series) -> u8
    ensures { result ≡ form_of series }
{
    match series {
        Series::Tps100 => 1,
        Series::Tps300 => 17,
    }
}

// Tells where the values start: after the first byte and as many settings as the series has.
#[tactic(auto, using(instrument::proofs::Ranges::settings_few))]
pub fn values_at(series: Series) -> usize
    ensures { (result ≡ values_at series) × (result ≤ 31) }
{
    1 + settings_of(series)
}

// Tells how many bytes an image of the series has.
pub fn image_size(series: Series) -> usize
    ensures { result ≡ image_n series }
{
    values_at(series) + REST
}

fn kept_in(s: &[u8]) -> Kept
    requires { length s.now ≡ value_n }
    ensures { result ≡ kept_in s.now }
{
    if s[0] != 1 {
        return None;
    }
    Some(Put {
        unit: s[1],
        minus: s[2],
        eight: [s[3], s[4], s[5], s[6], s[7], s[8], s[9], s[10]],
    })
}

fn entry_in(s: &[u8]) -> Entry
    requires { length s.now ≡ entry_n }
    ensures { result ≡ entry_in s.now }
{
    let item = match s[0] {
        1 => Item::Setting(s[1]),
        2 => Item::Stored(s[1]),
        _ => Item::Free,
    };
    Entry {
        item,
        former: Former {
            parameter: s[2],
            kept: kept_in(&s[3..14]),
        },
    }
}

fn values_in(s: &[u8]) -> [Kept; VALUES]
    ensures { result ≡ values_read s.now }
{
    let mut values = [None; VALUES];
    if s.len() == COUNT_AT {
        for (i, value) in values.iter_mut().enumerate() {
            let a = i * VALUE;
            *value = kept_in(&s[a..a + VALUE]);
        }
    }
    values
}

// Reads the entries up to the count; past it they are blank.
fn entries_in(s: &[u8], count: usize) -> [Entry; ENTRIES]
    ensures { result ≡ entries_read count s.now }
{
    let blank = blank_entry();
    let mut undo = [blank; ENTRIES];
    if s.len() == ENTRIES * ENTRY {
        for i in 0..count.min(ENTRIES) {
            let a = i * ENTRY;
            undo[i] = entry_in(&s[a..a + ENTRY]);
        }
    }
    undo
}

fn byte_at(s: &[u8], at: usize) -> u8
    ensures { result ≡ get_or s.now at 0 }
{
    s.get(at).copied().unwrap_or(0)
}

// Reads the series that the first byte says.
pub fn series_in(image: &[u8]) -> Series
    ensures { result ≡ series_in image.now }
{
    if byte_at(image, 0) == 17 {
        Series::Tps300
    } else {
        Series::Tps100
    }
}

// Reads how many entries stand.
pub fn count_in(series: Series, image: &[u8]) -> usize
    ensures { result ≡ count_in series image.now }
{
    let at = values_at(series) + COUNT_AT;
    let high = usize::from(byte_at(image, at));
    let low = usize::from(byte_at(image, at + 1));
    high * 256 + low
}

// Reads the parameter of the setting at a place.
pub fn parameter_in(place: usize, image: &[u8]) -> u8
    ensures { result ≡ get_or image.now (1 + place) 0 }
{
    if image.len() <= place {
        return 0;
    }
    byte_at(image, 1 + place)
}

// Reads the value that is stored at a place; past the last, and past the bytes' end, none was ever put.
pub fn value_in(series: Series, place: usize, image: &[u8]) -> Kept
    ensures { result ≡ stored_in series place image.now }
{
    if VALUES <= place {
        return None;
    }
    let a = values_at(series) + place * VALUE;
    let z = a + VALUE;
    if image.len() < z {
        return None;
    }
    kept_in(&image[a..z])
}

// Reads the entry at a place of the list; past the last, and past the bytes' end, it is blank.
pub fn entry_at(series: Series, n: usize, image: &[u8]) -> Entry
    ensures { result ≡ entry_at series n image.now }
{
    if ENTRIES <= n {
        return blank_entry();
    }
    let a = values_at(series) + ENTRIES_AT + n * ENTRY;
    let z = a + ENTRY;
    if image.len() < z {
        return blank_entry();
    }
    entry_in(&image[a..z])
}

// Reads a state from the parts of its image: parameters, stored values, entries up to the count, for a caller that wants the whole state.
pub fn state_of(
    series: Series,
    parameters: &[u8],
    stored: &[u8],
    entries: &[u8],
    count: usize,
) -> State
    ensures { result ≡ state_of series parameters.now stored.now entries.now count }
{
    let mut settings = [0; SETTINGS];
    figures::lay(parameters, &mut settings);
    State {
        series,
        settings,
        values: values_in(stored),
        undo: entries_in(entries, count),
        count,
    }
}
