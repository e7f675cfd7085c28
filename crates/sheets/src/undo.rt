// The undo list of a sheet of the second form: its lines taken, and the whole list held to what a state may hold.
ghost use Rattle.std.specs.Prelude.{◌≡◌, true, ◌≤◌, ◌<◌, length, replicate, IfOk};
ghost use Rattle.figures.specs.Bytes.{starts_with};
ghost use Rattle.instrument.specs.Values.{values_n, value_place};
ghost use Rattle.state.specs.Entries.{entries_n, entry_of, blank_entry, contents_right};
ghost use Rattle.state.specs.Keeping.{puts_of, goes_back};
ghost use Rattle.state.specs.declared.entries.Item.TheVariants.{Stored};
ghost use Rattle.instrument.specs.declared.settings.Series.{Series};
ghost use Rattle.sheets.specs.Undo.{item_key, number_said};
ghost use Rattle.sheets.specs.Loading.{entries_from, list_from};
ghost use Rattle.sheets.specs.Keeping.{setting_start, entry_taken, count_taken, lines_to, entries_filled, list_count, contents_by};

use crate::answers::SheetRefusal;
use crate::loading::{Digits, First, Taken, number_line, put_at, put_stands, said_at};
use crate::writing::digits_in;
use instrument::settings::{Series, in_range, row_at, setting_at};
use instrument::values::{Kept, VALUES, is_put, value_place};
use state::entries::{ENTRIES, Entry, Former, Item, blank_entry};

// Takes the count's line from the start of the bytes.
fn take_count(s: &[u8]) -> Option<Taken<usize>>
    ensures { result ≡ count_taken s.now }
{
    if !figures::starts(s, b"undo=") {
        return None;
    }
    let line = number_line(s, 5)?;
    let count = line.held as usize;
    if ENTRIES < count {
        return None;
    }
    Some(Taken {
        to: 5 + line.to,
        held: count,
    })
}

// Takes the rest of the line of a setting, after its number and the colon.
fn take_former(series: Series, number: u16, s: &[u8], at: usize) -> Option<Taken<Entry>>
    requires { (number ≡ number_said s.now) × ((starts_with (setting_start number) s.now ≡ true) × (at ≡ length (setting_start number))) }
    ensures { result ≡ entry_taken series s.now }
{
    let place = setting_at(series, number)?;
    let row = row_at(series, place);
    if row.asked {
        return None;
    }
    let line = number_line(s, at)?;
    if !in_range(row, line.held) {
        return None;
    }
    let former = Former {
        parameter: line.held as u8,
        kept: None,
    };
    Some(Taken {
        to: at + line.to,
        held: Entry {
            item: Item::Setting(place as u8),
            former,
        },
    })
}

fn stored_entry(place: usize, kept: Kept) -> Entry
    requires { place < values_n }
    ensures { result ≡ entry_of (Stored place) 0 kept }
{
    Entry {
        item: Item::Stored(place as u8),
        former: Former { parameter: 0, kept },
    }
}

// Takes the rest of the line of a value, after its index of two digits and the colon.
fn take_stored(series: Series, place: usize, s: &[u8]) -> Option<Taken<Entry>>
    requires { (value_place (number_said s.now) ≡ Some place) × (starts_with (item_key series (Stored place)) s.now ≡ true) }
    ensures { result ≡ entry_taken series s.now }
{
    if s.len() < 7 {
        return None;
    }
    if s[6] == b'\n' {
        return Some(Taken {
            to: 7,
            held: stored_entry(place, None),
        });
    }
    let put = &s[2..];
    if s.len() < 22 || !put_stands(place, put) {
        return None;
    }
    Some(Taken {
        to: 22,
        held: stored_entry(place, put_at(put)),
    })
}

// Takes the line of an entry from the start of the bytes: `u=`, the letter and number of its item, a colon, what was there before, LF.
fn take_entry(series: Series, s: &[u8]) -> Option<Taken<Entry>>
    ensures { result ≡ entry_taken series s.now }
{
    if !figures::starts(s, b"u=") || s.len() < 4 {
        return None;
    }
    let Digits { number, digits } = said_at(s, 3);
    let colon = 3 + digits;
    if digits != digits_in(number) || s.len() <= colon || s[colon] != b':' {
        return None;
    }
    let letter = s[2];
    if letter == b's' {
        return take_former(series, number as u16, s, colon + 1);
    }
    if letter != b'v' {
        return None;
    }
    take_stored(series, value_place(number as u16)?, s)
}

// Reads so many lines of entries, from a place on, into entries that are blank, and answers the place past them.
fn entries_in(
    series: Series,
    sheet: &[u8],
    start: usize,
    count: usize,
    entries: &mut [Entry; ENTRIES],
) -> Result<usize, SheetRefusal>
    requires within { start ≤ length sheet.now }
    requires few { count ≤ entries_n }
    requires blank { entries.old ≡ replicate entries_n blank_entry }
    ensures to { result ≡ lines_to (entries_from series count sheet.now start).came }
    ensures held { IfOk result (λ to. entries.new ≡ entries_filled (entries_from series count sheet.now start).got) }
{
    let mut to = start;
    for i in 0..count {
        let line = take_entry(series, &sheet[to..]).ok_or(SheetRefusal::Wrong(to))?;
        entries[i] = line.held;
        to += line.to;
    }
    Ok(to)
}

// Tells which values are put.
fn puts_of(values: [Kept; VALUES]) -> [bool; VALUES]
    ensures { result ≡ puts_of values }
{
    let mut puts = [false; VALUES];
    for i in 0..VALUES {
        puts[i] = is_put(values[i]);
    }
    puts
}

// Tells whether none of the entries, taken back newest first, names a value then never put.
fn goes_back(values: [Kept; VALUES], entries: &[Entry; ENTRIES], count: usize) -> bool
    requires { count ≤ entries_n }
    ensures { result ≡ goes_back count (puts_of values) entries.now }
{
    let mut puts = puts_of(values);
    for n in (0..count).rev() {
        let Entry { item, former } = entries[n];
        if let Item::Stored(i) = item {
            let place = usize::from(i);
            if VALUES <= place || !puts[place] {
                return false;
            }
            puts[place] = is_put(former.kept);
        }
    }
    true
}

// Reads the undo list, from its `undo=` line to the sheet's end, into entries that are blank, and answers how many they are. It is read over what the first
// form's lines hold, from which it is taken back. The entries are lent, so that there is one array of them.
pub(crate) fn list_in(
    series: Series,
    first: &First,
    sheet: &[u8],
    entries: &mut [Entry; ENTRIES],
) -> Result<usize, SheetRefusal>
    requires right { contents_right (contents_by series first.now.settings first.now.values) ≡ true }
    requires within { first.now.to ≤ length sheet.now }
    requires blank { entries.old ≡ replicate entries_n blank_entry }
    ensures count { result ≡ list_count (list_from (contents_by series first.now.settings first.now.values) sheet.now first.now.to) }
    ensures held { IfOk result (λ n. entries.new ≡ entries_filled (list_from (contents_by series first.now.settings first.now.values) sheet.now first.now.to).got) }
{
    let start = first.to;
    let line = take_count(&sheet[start..]).ok_or(SheetRefusal::Wrong(start))?;
    let count = line.held;
    let to = entries_in(series, sheet, start + line.to, count, entries)?;
    if to != sheet.len() {
        return Err(SheetRefusal::Wrong(to));
    }
    if !goes_back(first.values, entries, count) {
        return Err(SheetRefusal::Wrong(start));
    }
    Ok(count)
}
