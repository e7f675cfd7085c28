// What a line is answered with, before the room is looked at.
ghost use Rattle.std.specs.Prelude.{◌≡◌, length, drop, Ok};
ghost use Rattle.instrument.specs.Settings.{setting_place};
ghost use Rattle.state.specs.Image.{state_in};
ghost use Rattle.commands.specs.Shapes.{groups_in, order_of};
ghost use Rattle.lines.specs.Verdicts.{verdict_number, verdict_which, verdict_byte, refused_of};
ghost use Rattle.lines.specs.Verdicts.{full_verdict, conf_verdict, place_named, put_verdict, order_verdict};
ghost use Rattle.lines.specs.Keeping.{set_verdict_by, groups_verdict};

use crate::images::Image;
use commands::shapes::{NoOrder, Order};
use instrument::settings::{Series, in_range, row_at, setting_at};
use instrument::values::{is_put, put_judged, value_place};
use state::entries::ENTRIES;
use units::kinds::named_by;
use words::reading::{Fault, fault_number};

// Why a line is refused. Word is a PUT word's fault, with the byte of the line.
#[derive(Clone, Copy)]
pub enum Refused {
    Unended,
    Long,
    Keyword,
    Shape,
    Setting,
    ReadOnly,
    Parameter,
    Index,
    Word(Fault, usize),
    NeverPut,
    Full,
    NoEntry,
    Room,
    NoState,
}

impl From<NoOrder> for Refused {
    ghost from_gives = { λ none refused. refused ≡ refused_of none };

    fn from(none: NoOrder) -> Refused {
        match none {
            NoOrder::WrongShape => Refused::Shape,
            NoOrder::NoKeyword => Refused::Keyword,
        }
    }
}

// A line is accepted, or refused.
pub type Verdict = Result<(), Refused>;

// Gives the number that the rules have for a verdict.
pub fn verdict_number(verdict: Verdict) -> u64
    ensures { result ≡ verdict_number verdict }
{
    match verdict {
        Ok(()) => 0,
        Err(Refused::Unended) => 20,
        Err(Refused::Long) => 21,
        Err(Refused::Keyword) => 22,
        Err(Refused::Shape) => 39,
        Err(Refused::Setting) => 23,
        Err(Refused::ReadOnly) => 38,
        Err(Refused::Parameter) => 24,
        Err(Refused::Index) => 25,
        Err(Refused::Word(_, _)) => 26,
        Err(Refused::NeverPut) => 27,
        Err(Refused::Full) => 28,
        Err(Refused::NoEntry) => 29,
        Err(Refused::Room) => 30,
        Err(Refused::NoState) => 31,
    }
}

// Tells which of a word's rules a PUT word breaks, by its number; 0 for every other verdict.
pub fn verdict_which(verdict: Verdict) -> u64
    ensures { result ≡ verdict_which verdict }
{
    match verdict {
        Err(Refused::Word(fault, _)) => fault_number(fault),
        _ => 0,
    }
}

// Tells the byte of the line where it breaks it; 0 for every other verdict.
pub fn verdict_byte(verdict: Verdict) -> usize
    ensures { result ≡ verdict_byte verdict }
{
    match verdict {
        Err(Refused::Word(_, byte)) => byte,
        _ => 0,
    }
}

// Finds the place among the series' settings of a number of any size.
#[tactic(auto, using(crate::proofs::Lookups::setting_none))]
pub(crate) fn setting_of(series: Series, number: u64) -> Option<usize>
    ensures { result ≡ setting_place series number }
{
    if 9999 < number {
        return None;
    }
    setting_at(series, number as u16)
}

fn full(count: usize) -> Verdict
    ensures { result ≡ full_verdict count }
{
    if ENTRIES <= count {
        Err(Refused::Full)
    } else {
        Ok(())
    }
}

fn set_verdict(series: Series, count: usize, number: u64, parameter: u64) -> Verdict
    ensures { result ≡ set_verdict_by series count number parameter }
{
    let place = setting_of(series, number).ok_or(Refused::Setting)?;
    let row = row_at(series, place);
    if row.asked {
        return Err(Refused::ReadOnly);
    }
    if !in_range(row, parameter) {
        return Err(Refused::Parameter);
    }
    full(count)
}

fn conf_verdict(series: Series, number: u64) -> Verdict
    ensures { result ≡ conf_verdict series number }
{
    setting_of(series, number).ok_or(Refused::Setting)?;
    Ok(())
}

// Finds the place of the stored value that two characters name.
pub(crate) fn place_named(tens: u8, ones: u8) -> Option<usize>
    ensures { result ≡ place_named tens ones }
{
    value_place(named_by(tens, ones)?)
}

// Takes the 16 bytes of PUT's word.
pub(crate) fn word_of(text: &[u8]) -> [u8; 16]
    requires { length text.now ≡ 20 }
    ensures { result ≡ drop 4 text.now }
{
    let mut word = [0; 16];
    figures::lay(&text[4..], &mut word);
    word
}

fn put_verdict(count: usize, word: [u8; 16]) -> Verdict
    ensures { result ≡ put_verdict count word }
{
    let place = place_named(word[0], word[1]).ok_or(Refused::Index)?;
    match put_judged(place, word) {
        Ok(()) => full(count),
        Err(wrong) => Err(Refused::Word(wrong.fault, 4 + wrong.at)),
    }
}

// Judges the indexes of GET, one after the other: 25, then 27.
fn get_verdict(image: Image, groups: &[u8]) -> Verdict
    ensures { result ≡ groups_verdict (state_in image.entry.bytes.now).values (groups_in groups.now) groups.now }
{
    for group in groups.chunks_exact(5) {
        let place = place_named(group[3], group[4]).ok_or(Refused::Index)?;
        if !is_put(image.value(place)) {
            return Err(Refused::NeverPut);
        }
    }
    Ok(())
}

// Judges a line's order: 22 to 29, 38 or 39, or accepted.
pub(crate) fn order_verdict(image: Image, text: &[u8], order: Order) -> Verdict
    requires { Ok order ≡ order_of text.now }
    ensures { result ≡ order_verdict (state_in image.entry.bytes.now) text.now (Ok order) }
{
    let count = image.count();
    match order {
        Order::Set(number, parameter) => set_verdict(image.series, count, number, parameter),
        Order::Conf(number) => conf_verdict(image.series, number),
        Order::Put => put_verdict(count, word_of(text)),
        Order::Get => get_verdict(image, &text[5..]),
        Order::Undo if count == 0 => Err(Refused::NoEntry),
        Order::Undo => Ok(()),
        Order::Keep => Ok(()),
    }
}
