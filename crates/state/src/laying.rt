// An image laid down: a part of it, or the factory state.
ghost use Rattle.std.specs.Prelude.{◌≡◌, ◌*◌, length};
ghost use Rattle.state.specs.Entries.{factory_state};
ghost use Rattle.instrument.specs.Values.{values_n};
ghost use Rattle.state.specs.Image.{value_n, kept_bytes, item_bytes, entry_bytes, values_bytes, encoded_in};
ghost use Rattle.state.specs.Keeping.{laid_at, parameter_laid, value_laid, entry_laid, count_laid, cleared, contents_laid};

use crate::entries::{ENTRIES, Entry, Item};
use crate::image::{COUNT_AT, ENTRIES_AT, ENTRY, VALUE, count_in, form_of, image_size, values_at};
use instrument::settings::{SETTINGS, Series, factory_settings};
use instrument::values::{Kept, VALUES};

#[tactic(auto, unfolding(crate::specs::Image::kept_bytes))]
fn kept_bytes(kept: Kept) -> [u8; VALUE]
    ensures { result ≡ kept_bytes kept }
{
    match kept {
        None => [0; VALUE],
        Some(put) => {
            let d = put.eight;
            [
                1, put.unit, put.minus, d[0], d[1], d[2], d[3], d[4], d[5], d[6], d[7],
            ]
        }
    }
}

// Gives the two bytes of an item: what it is, and its place.
fn item_bytes(item: Item) -> [u8; 2]
    ensures { result ≡ item_bytes item }
{
    match item {
        Item::Free => [0, 0],
        Item::Setting(i) => [1, i],
        Item::Stored(i) => [2, i],
    }
}

fn entry_bytes(entry: Entry) -> [u8; ENTRY]
    ensures { result ≡ entry_bytes entry }
{
    let a = item_bytes(entry.item);
    let b = kept_bytes(entry.former.kept);
    let p = entry.former.parameter;
    [
        a[0], a[1], p, b[0], b[1], b[2], b[3], b[4], b[5], b[6], b[7], b[8], b[9], b[10],
    ]
}

fn put_values(values: [Kept; VALUES], out: &mut [u8])
    requires { length out.old ≡ values_n * value_n }
    ensures { out.new ≡ values_bytes values }
{
    for (i, kept) in values.iter().enumerate() {
        let a = i * VALUE;
        figures::lay(&kept_bytes(*kept), &mut out[a..a + VALUE]);
    }
}

// Lays bytes down from a place on, where they fit; otherwise it does nothing.
fn lay_at(w: &[u8], at: usize, image: &mut [u8])
    ensures { image.new ≡ laid_at at w.now image.old }
{
    if image.len() < at || image.len() - at < w.len() {
        return;
    }
    figures::lay(w, &mut image[at..at + w.len()]);
}

// Lays the parameter of the setting at a place down; it does nothing where its byte isn't there.
pub fn put_parameter(place: usize, parameter: u8, image: &mut [u8])
    ensures { image.new ≡ parameter_laid place parameter image.old }
{
    if SETTINGS <= place {
        return;
    }
    lay_at(&[parameter], 1 + place, image);
}

// Lays the value at a place down; it does nothing where its bytes aren't there.
pub fn put_value(series: Series, place: usize, kept: Kept, image: &mut [u8])
    ensures { image.new ≡ value_laid series place kept image.old }
{
    if VALUES <= place {
        return;
    }
    lay_at(&kept_bytes(kept), values_at(series) + place * VALUE, image);
}

// Lays the entry at a place of the list down; it does nothing where its bytes aren't there.
pub fn put_entry(series: Series, n: usize, entry: Entry, image: &mut [u8])
    ensures { image.new ≡ entry_laid series n entry image.old }
{
    if ENTRIES <= n {
        return;
    }
    lay_at(
        &entry_bytes(entry),
        values_at(series) + ENTRIES_AT + n * ENTRY,
        image,
    );
}

// Lays the number of entries down; it does nothing where its bytes aren't there.
pub fn put_count(series: Series, count: usize, image: &mut [u8])
    ensures { image.new ≡ count_laid series count image.old }
{
    let b = [(count / 256 % 256) as u8, (count % 256) as u8];
    lay_at(&b, values_at(series) + COUNT_AT, image);
}

// Blanks the entries up to the count, and the count. In an image the rest is blank already.
pub fn clear(series: Series, image: &mut [u8])
    ensures { image.new ≡ cleared series image.old }
{
    let count = count_in(series, image);
    let a = values_at(series) + ENTRIES_AT;
    let z = a + count * ENTRY;
    if image.len() < z {
        return;
    }
    image[a..z].fill(0);
    put_count(series, 0, image);
}

// Lays settings and values down.
pub fn put_contents(
    series: Series,
    settings: [u8; SETTINGS],
    values: [Kept; VALUES],
    image: &mut [u8],
)
    ensures { image.new ≡ contents_laid series settings values image.old }
{
    let at = values_at(series);
    let z = at + COUNT_AT;
    if image.len() < z {
        return;
    }
    figures::lay(&settings, &mut image[1..at]);
    put_values(values, &mut image[at..z]);
}

// Lays the series' factory state down; it does nothing where the bytes aren't as many as an image of the series has.
pub fn put_factory(series: Series, image: &mut [u8])
    ensures { image.new ≡ encoded_in (factory_state series) image.old }
{
    if image.len() != image_size(series) {
        return;
    }
    image.fill(0);
    image[0] = form_of(series);
    figures::lay(&factory_settings(series), &mut image[1..values_at(series)]);
}
