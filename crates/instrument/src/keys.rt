// The keys of the settings on a sheet.
ghost use Rattle.std.specs.Prelude.{◌≡◌};
ghost use Rattle.instrument.specs.Rows.{key_bytes};
ghost use Rattle.instrument.specs.Settings.{setting_number, row_at};

use crate::settings::{Series, row_at};

// The bytes that hold a key, four or five and noughts: eight are handed over in one.
pub const KEY: usize = 8;

// Gives the key of the setting at a place.
#[tactic(auto, using(crate::proofs::Ranges::keyed))]
pub fn key_at(series: Series, place: usize) -> [u8; KEY]
    ensures { result ≡ key_bytes "s" (setting_number (row_at series place)) }
{
    row_at(series, place).key
}
