// What an accepted SET, PUT or UNDO does: the state is taken out of the image and altered, and what is altered is laid down.
ghost use Rattle.std.specs.Prelude.{◌≡◌, ◌<◌, Ok};
ghost use Rattle.state.specs.Entries.{entries_n};
ghost use Rattle.state.specs.Image.{image_of, state_in};
ghost use Rattle.state.specs.Keeping.{Imaged};
ghost use Rattle.instrument.specs.Settings.{settings_n};
ghost use Rattle.instrument.specs.Values.{values_n};
ghost use Rattle.lines.specs.Verdicts.{accepted, set_verdict, put_verdict};
ghost use Rattle.lines.specs.Orders.{set_to, put_to, changed_by, undo_of, set_deed, put_deed, deed_of, done_of};
ghost use Rattle.lines.specs.Keeping.{Accepts, back_laid};

use crate::images::Image;
use crate::verdicts::{place_named, setting_of, word_of};
use commands::shapes::Order;
use instrument::settings::Series;
use instrument::values::{Kept, put_kept};
use state::entries::{Entry, Former, Item, blank_entry};
use state::laying::{clear, put_count, put_entry, put_parameter, put_value};

// Stores the parameter, and keeps the former one in an entry.
#[tactic(auto, using(instrument::proofs::Ranges::settings_few))]
fn set(series: Series, place: usize, parameter: u8, image: &mut [u8])
    requires { Imaged series image.old × ((place < settings_n series) × ((state_in image.old).count < entries_n)) }
    ensures { image.new ≡ image_of (changed_by (state_in image.old) (set_to place parameter)) }
{
    let lent = Image {
        series,
        bytes: image,
    };
    let mut s = lent.state();
    let n = s.count;
    s.undo[n] = Entry {
        item: Item::Setting(place as u8),
        former: Former {
            parameter: s.settings[place],
            kept: None,
        },
    };
    s.settings[place] = parameter;
    s.count = n + 1;
    put_parameter(place, s.settings[place], image);
    put_entry(series, n, s.undo[n], image);
    put_count(series, s.count, image);
}

// Stores the value, and keeps the former one in an entry.
fn put(series: Series, place: usize, kept: Kept, image: &mut [u8])
    requires { Imaged series image.old × ((place < values_n) × ((state_in image.old).count < entries_n)) }
    ensures { image.new ≡ image_of (changed_by (state_in image.old) (put_to place kept)) }
{
    let lent = Image {
        series,
        bytes: image,
    };
    let mut s = lent.state();
    let n = s.count;
    s.undo[n] = Entry {
        item: Item::Stored(place as u8),
        former: Former {
            parameter: 0,
            kept: s.values[place],
        },
    };
    s.values[place] = kept;
    s.count = n + 1;
    put_value(series, place, s.values[place], image);
    put_entry(series, n, s.undo[n], image);
    put_count(series, s.count, image);
}

// Lays an item's former content down again.
fn put_back(series: Series, item: Item, former: Former, image: &mut [u8])
    ensures { image.new ≡ back_laid series item former image.old }
{
    match item {
        Item::Free => {}
        Item::Setting(b) => put_parameter(usize::from(b), former.parameter, image),
        Item::Stored(b) => put_value(series, usize::from(b), former.kept, image),
    }
}

// Takes the newest entry back.
fn undo(series: Series, image: &mut [u8])
    requires { Imaged series image.old × (0 < (state_in image.old).count) }
    ensures { image.new ≡ image_of (undo_of (state_in image.old)) }
{
    let lent = Image {
        series,
        bytes: image,
    };
    let mut s = lent.state();
    let n = s.count - 1;
    let entry = s.undo[n];
    s.undo[n] = blank_entry();
    s.count = n;
    put_back(series, entry.item, entry.former, image);
    put_entry(series, n, s.undo[n], image);
    put_count(series, s.count, image);
}

fn run_set(series: Series, number: u64, parameter: u64, image: &mut [u8])
    requires { Imaged series image.old × (set_verdict (state_in image.old) number parameter ≡ accepted) }
    ensures { image.new ≡ image_of (done_of (state_in image.old) (set_deed series number parameter)) }
{
    if let Some(place) = setting_of(series, number) {
        set(series, place, parameter as u8, image);
    }
}

fn run_put(series: Series, word: [u8; 16], image: &mut [u8])
    requires { Imaged series image.old × (put_verdict (state_in image.old).count word ≡ accepted) }
    ensures { image.new ≡ image_of (done_of (state_in image.old) (put_deed word)) }
{
    if let Some(place) = place_named(word[0], word[1]) {
        put(series, place, put_kept(word), image);
    }
}

// Does what an accepted line does; CONF and GET alter nothing.
pub(crate) fn alter(series: Series, text: &[u8], order: Order, image: &mut [u8])
    requires { Imaged series image.old × Accepts (state_in image.old) text.now order }
    ensures { image.new ≡ image_of (done_of (state_in image.old) (deed_of series text.now (Ok order))) }
{
    match order {
        Order::Set(number, parameter) => run_set(series, number, parameter, image),
        Order::Put => run_put(series, word_of(text), image),
        Order::Undo => undo(series, image),
        Order::Keep => clear(series, image),
        Order::Conf(_) | Order::Get => {}
    }
}
