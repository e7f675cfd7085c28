// The state, and its undo list: an array by value of entries, each with the item and its former content, blank past the count.
ghost use Rattle.std.specs.Prelude.{◌≡◌};
ghost use Rattle.state.specs.Entries.{blank_entry, settable};

use instrument::settings::{SETTINGS, Series, in_range, row_at, settings_of};
use instrument::values::{Kept, VALUES};

pub const ENTRIES: usize = 64;

// What a SET or PUT altered, as its place in the list of settings or of values.
#[derive(Clone, Copy)]
pub enum Item {
    Free,
    Setting(u8),
    Stored(u8),
}

// What stood there before: a setting's parameter, a value's content; the other is blank.
#[derive(Clone, Copy)]
pub struct Former {
    pub parameter: u8,
    pub kept: Kept,
}

#[derive(Clone, Copy)]
pub struct Entry {
    pub item: Item,
    pub former: Former,
}

// Settings past those that the series has are 0.
#[derive(Clone, Copy)]
pub struct State {
    pub series: Series,
    pub settings: [u8; SETTINGS],
    pub values: [Kept; VALUES],
    pub undo: [Entry; ENTRIES],
    pub count: usize,
}

// Gives the entry that holds nothing.
pub fn blank_entry() -> Entry
    ensures { result ≡ blank_entry }
{
    Entry {
        item: Item::Free,
        former: Former {
            parameter: 0,
            kept: None,
        },
    }
}

// Judges a parameter as `settable` does, by the table of a series that the compiler knows.
#[inline(always)]
fn settable_in(series: Series, place: usize, parameter: u8) -> bool
    ensures { result ≡ settable series place parameter }
{
    let row = row_at(series, place);
    place < settings_of(series) && !row.asked && in_range(row, u64::from(parameter))
}

// Tells whether a SET can leave the parameter at the place. The series is named so that the compiler knows the table.
pub(crate) fn settable(series: Series, place: usize, parameter: u8) -> bool
    ensures { result ≡ settable series place parameter }
{
    match series {
        Series::Tps100 => settable_in(Series::Tps100, place, parameter),
        Series::Tps300 => settable_in(Series::Tps300, place, parameter),
    }
}
