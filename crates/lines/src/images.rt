// An image that is lent to be read.
ghost use Rattle.std.specs.Prelude.{◌≡◌, ◌<◌, get_or};
ghost use Rattle.instrument.specs.Settings.{settings_n};
ghost use Rattle.instrument.specs.Values.{values_n};
ghost use Rattle.state.specs.Entries.{value_held};
ghost use Rattle.state.specs.Image.{state_in};
ghost use Rattle.state.specs.Keeping.{Imaged};

use instrument::settings::Series;
use instrument::values::Kept;
use state::entries::State;
use state::image::{
    COUNT_AT, ENTRIES_AT, REST, count_in, parameter_in, state_of, value_in, values_at,
};

// The bytes, which are judged, and their series.
#[derive(Clone, Copy)]
pub(crate) struct Image<'a> {
    pub(crate) series: Series,
    pub(crate) bytes: &'a [u8],
    ghost judged: { Imaged series bytes.now },
}

impl<'a> Image<'a> {
    // Gives the count of entries.
    #[tactic(auto, using(state::proofs::Places::count_read))]
    pub(crate) fn count(self) -> usize
        ensures { result ≡ (state_in self.entry.bytes.now).count }
    {
        count_in(self.series, self.bytes)
    }

    // Gives the parameter at a place of the settings.
    #[tactic(auto, using(state::proofs::Places::parameter_read))]
    pub(crate) fn parameter(self, place: usize) -> u8
        requires { place < settings_n self.series }
        ensures { result ≡ get_or (state_in self.entry.bytes.now).settings place 0 }
    {
        parameter_in(place, self.bytes)
    }

    // Gives what is stored at a place of the values.
    #[tactic(auto, using(state::proofs::Places::stored_read))]
    pub(crate) fn value(self, place: usize) -> Kept
        requires { place < values_n }
        ensures { result ≡ value_held (state_in self.entry.bytes.now).values place }
    {
        value_in(self.series, place, self.bytes)
    }

    // Takes the state out of the image.
    #[tactic(auto, using(state::proofs::Places::state_read))]
    pub(crate) fn state(self) -> State
        ensures { result ≡ state_in self.entry.bytes.now }
    {
        let values = values_at(self.series);
        let count = values + COUNT_AT;
        let entries = values + ENTRIES_AT;
        let end = values + REST;
        state_of(
            self.series,
            &self.bytes[1..values],
            &self.bytes[values..count],
            &self.bytes[entries..end],
            self.count(),
        )
    }
}
