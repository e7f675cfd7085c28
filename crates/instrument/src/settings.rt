// The settings of a series: the row of one, its lookup by number, and its range, whatever the series. Each series has its rows in a file of its own.
ghost use Rattle.std.specs.Prelude.{◌≡◌};
ghost use Rattle.instrument.specs.Settings.{rows_of, row_at, settings_n, setting_place, factory_settings, is_gap, in_range, in_ranges};

use crate::keys::KEY;
use crate::tps100::{SETTINGS_100, row_100};
use crate::tps300::row_300;

// The most settings that a series has: those of a TPS300.
pub const SETTINGS: usize = 30;

#[derive(Clone, Copy, PartialEq, Eq)]
pub enum Series {
    Tps100,
    Tps300,
}

// A setting: its number, its key on a sheet, its lowest and highest parameter, up to four parameters between them that
// it doesn't have (255 leaves none out), whether it can only be asked for, and the factory's parameter.
#[derive(Clone, Copy, PartialEq, Eq)]
pub struct Row {
    pub number: u16,
    pub key: [u8; KEY],
    pub lowest: u8,
    pub highest: u8,
    pub gaps: [u8; 4],
    pub asked: bool,
    pub factory: u8,
}

// The row of noughts, for places past a series' last. A table's row says where it differs from it.
pub(crate) const NO_ROW: Row = Row {
    number: 0,
    key: *b"s0=\0\0\0\0\0",
    lowest: 0,
    highest: 0,
    gaps: [255; 4],
    asked: false,
    factory: 0,
};

// Gives the row at a place; past the series' last it is the row of noughts. It and the tables are compiled into their callers, so that a loop over rows makes
// no calls and reads only the fields that it asks for.
#[inline(always)]
pub fn row_at(series: Series, place: usize) -> Row
    ensures { result ≡ row_at series place }
{
    match series {
        Series::Tps100 => row_100(place),
        Series::Tps300 => row_300(place),
    }
}

// Tells how many settings the series has.
#[tactic(auto, unfolding(crate::specs::Settings::rows100, crate::specs::Settings::rows300))]
pub fn settings_of(series: Series) -> usize
    ensures { result ≡ settings_n series }
{
    match series {
        Series::Tps100 => SETTINGS_100,
        Series::Tps300 => SETTINGS,
    }
}

// Finds a place as `setting_at` does, in the table of a series that the compiler knows.
#[inline(always)]
#[tactic(auto, using(crate::proofs::Ranges::seek_here, crate::proofs::Ranges::seek_further, crate::proofs::Ranges::seek_none))]
fn seek(series: Series, number: u16) -> Option<usize>
    ensures { result ≡ setting_place series number }
{
    for i in 0..settings_of(series) {
        if row_at(series, i).number == number {
            return Some(i);
        }
    }
    None
}

// Finds the place of the setting of that number. The series is named, here and below, so that the compiler knows the table: otherwise a line takes a third longer.
pub fn setting_at(series: Series, number: u16) -> Option<usize>
    ensures { result ≡ setting_place series number }
{
    match series {
        Series::Tps100 => seek(Series::Tps100, number),
        Series::Tps300 => seek(Series::Tps300, number),
    }
}

// Gives the parameters of the factory, with noughts past the series' last.
pub fn factory_settings(series: Series) -> [u8; SETTINGS]
    ensures { result ≡ factory_settings series }
{
    let mut settings = [0; SETTINGS];
    for (i, parameter) in settings.iter_mut().enumerate() {
        *parameter = row_at(series, i).factory;
    }
    settings
}

fn is_gap(gaps: [u8; 4], parameter: u64) -> bool
    ensures { result ≡ is_gap gaps parameter }
{
    gaps.iter().any(|g| u64::from(*g) == parameter)
}

// Tells whether the setting has the parameter: from the lowest to the highest, and in no gap.
pub fn in_range(row: Row, parameter: u64) -> bool
    ensures { result ≡ in_range row parameter }
{
    u64::from(row.lowest) <= parameter
        && parameter <= u64::from(row.highest)
        && !is_gap(row.gaps, parameter)
}

// Judges parameters as `in_ranges` does, by the table of a series that the compiler knows.
#[inline(always)]
#[tactic(auto, using(crate::proofs::Ranges::ranges_else, crate::proofs::Ranges::ranges_off, crate::proofs::Ranges::ranges_on, crate::proofs::Ranges::ranges_done))]
fn each_in_range(series: Series, s: &[u8]) -> bool
    ensures { result ≡ in_ranges (rows_of series) s.now }
{
    if s.len() != settings_of(series) {
        return false;
    }
    for (i, parameter) in s.iter().enumerate() {
        if !in_range(row_at(series, i), u64::from(*parameter)) {
            return false;
        }
    }
    true
}

// Tells whether there is a byte for each setting of the series, and each is a parameter that its setting has.
pub fn in_ranges(series: Series, s: &[u8]) -> bool
    ensures { result ≡ in_ranges (rows_of series) s.now }
{
    match series {
        Series::Tps100 => each_in_range(Series::Tps100, s),
        Series::Tps300 => each_in_range(Series::Tps300, s),
    }
}
