// Whether bytes are a state's image, judged where they lie.
ghost use Rattle.std.specs.Prelude.{◌≡◌, ◌≤◌, ◌*◌, length};
ghost use Rattle.state.specs.Entries.{entries_n};
ghost use Rattle.instrument.specs.Values.{values_n};
ghost use Rattle.state.specs.Image.{value_n, entry_n, values_in, is_image};
ghost use Rattle.state.specs.Keeping.{puts_of, value_lies, values_lie, entry_lies, entries_lie};

use crate::entries::{ENTRIES, settable};
use crate::image::{
    COUNT_AT, ENTRIES_AT, ENTRY, REST, VALUE, count_in, form_of, image_size, series_in, values_at,
};
use instrument::settings::{Series, in_ranges};
use instrument::values::{VALUES, parts_right};

// Tells whether eleven bytes are a value that the place may hold.
#[tactic(auto, using(crate::proofs::Held::value_never, crate::proofs::Held::value_put, crate::proofs::Held::value_none))]
fn value_right(place: usize, s: &[u8]) -> bool
    requires { length s.now ≡ value_n }
    ensures { result ≡ value_lies place s.now }
{
    match s[0] {
        0 => figures::all_within(&s[1..11], 0, 0),
        1 => parts_right(place, &s[1..11]),
        _ => false,
    }
}

fn values_right(s: &[u8]) -> bool
    requires { length s.now ≡ values_n * value_n }
    ensures { result ≡ values_lie 0 values_n s.now }
{
    for i in 0..VALUES {
        let a = i * VALUE;
        if !value_right(i, &s[a..a + VALUE]) {
            return false;
        }
    }
    true
}

// Tells which values are put.
fn puts_in(s: &[u8]) -> [bool; VALUES]
    requires { length s.now ≡ values_n * value_n }
    ensures { result ≡ puts_of (values_in s.now) }
{
    let mut puts = [false; VALUES];
    for (i, put) in puts.iter_mut().enumerate() {
        *put = s[i * VALUE] == 1;
    }
    puts
}

// Tells whether fourteen bytes are an entry that may stand.
fn entry_right(series: Series, e: &[u8]) -> bool
    requires { length e.now ≡ entry_n }
    ensures { result ≡ entry_lies series e.now }
{
    let place = usize::from(e[1]);
    match e[0] {
        1 => settable(series, place, e[2]) && figures::all_within(&e[3..14], 0, 0),
        2 => place < VALUES && e[2] == 0 && value_right(place, &e[3..14]),
        _ => false,
    }
}

// Tells whether the entries up to the count may stand and, taken back newest first, none names a value then never put: all in one pass.
fn entries_right(series: Series, values: &[u8], s: &[u8], count: usize) -> bool
    requires { (length values.now ≡ values_n * value_n) × ((length s.now ≡ entries_n * entry_n) × (count ≤ entries_n)) }
    ensures { result ≡ entries_lie series count (puts_of (values_in values.now)) s.now }
{
    let mut puts = puts_in(values);
    for n in (0..count).rev() {
        let a = n * ENTRY;
        let e = &s[a..a + ENTRY];
        if !entry_right(series, e) {
            return false;
        }
        if e[0] == 2 {
            let place = usize::from(e[1]);
            if !puts[place] {
                return false;
            }
            puts[place] = e[3] == 1;
        }
    }
    true
}

// Tells whether the bytes are a state's image, judged where they lie.
#[tactic(auto, using(crate::proofs::Refused::wrong_form, crate::proofs::Refused::out_of_range, crate::proofs::Refused::wrong_value, crate::proofs::Refused::too_many, crate::proofs::Refused::not_nought, crate::proofs::Refused::by_entries))]
pub fn is_image(image: &[u8]) -> bool
    ensures { result ≡ is_image image.now }
{
    let series = series_in(image);
    if image.len() != image_size(series) || image[0] != form_of(series) {
        return false;
    }
    let at = values_at(series);
    if !in_ranges(series, &image[1..at]) {
        return false;
    }
    let rest = &image[at..];
    if !values_right(&rest[0..COUNT_AT]) {
        return false;
    }
    let count = count_in(series, image);
    if ENTRIES < count {
        return false;
    }
    let past = ENTRIES_AT + count * ENTRY;
    if !figures::all_within(&rest[past..REST], 0, 0) {
        return false;
    }
    entries_right(series, &rest[0..COUNT_AT], &rest[ENTRIES_AT..REST], count)
}
