// The settings of a TPS100, a constant row for each: document 000, SET list of TPS100.
ghost use Rattle.std.specs.Prelude.{◌≡◌, get_or};
ghost use Rattle.instrument.specs.Settings.{rows100, no_row};

use crate::settings::{NO_ROW, Row};

// How many there are.
pub const SETTINGS_100: usize = 19;

// Where 73 stands among them, which says how a reply ends; what uses the place proves it.
pub const END_100: usize = 10;

const S30: Row = Row {
    number: 30,
    key: *b"s30=\0\0\0\0",
    highest: 1,
    ..NO_ROW
};

const S32: Row = Row {
    number: 32,
    key: *b"s32=\0\0\0\0",
    highest: 3,
    ..NO_ROW
};

const S34: Row = Row {
    number: 34,
    key: *b"s34=\0\0\0\0",
    highest: 1,
    ..NO_ROW
};

const S40: Row = Row {
    number: 40,
    key: *b"s40=\0\0\0\0",
    highest: 2,
    ..NO_ROW
};

const S41: Row = Row {
    number: 41,
    key: *b"s41=\0\0\0\0",
    highest: 1,
    ..NO_ROW
};

const S44: Row = Row {
    number: 44,
    key: *b"s44=\0\0\0\0",
    highest: 2,
    ..NO_ROW
};

const S49: Row = Row {
    number: 49,
    key: *b"s49=\0\0\0\0",
    highest: 1,
    ..NO_ROW
};

const S50: Row = Row {
    number: 50,
    key: *b"s50=\0\0\0\0",
    highest: 2,
    ..NO_ROW
};

const S70: Row = Row {
    number: 70,
    key: *b"s70=\0\0\0\0",
    highest: 5,
    factory: 5,
    ..NO_ROW
};

const S71: Row = Row {
    number: 71,
    key: *b"s71=\0\0\0\0",
    highest: 2,
    ..NO_ROW
};

const S73: Row = Row {
    number: 73,
    key: *b"s73=\0\0\0\0",
    highest: 1,
    factory: 1,
    ..NO_ROW
};

const S76: Row = Row {
    number: 76,
    key: *b"s76=\0\0\0\0",
    highest: 1,
    ..NO_ROW
};

const S80: Row = Row {
    number: 80,
    key: *b"s80=\0\0\0\0",
    highest: 1,
    ..NO_ROW
};

const S81: Row = Row {
    number: 81,
    key: *b"s81=\0\0\0\0",
    highest: 2,
    ..NO_ROW
};

const S95: Row = Row {
    number: 95,
    key: *b"s95=\0\0\0\0",
    highest: 1,
    ..NO_ROW
};

const S102: Row = Row {
    number: 102,
    key: *b"s102=\0\0\0",
    highest: 1,
    ..NO_ROW
};

const S103: Row = Row {
    number: 103,
    key: *b"s103=\0\0\0",
    highest: 1,
    factory: 1,
    ..NO_ROW
};

const S135: Row = Row {
    number: 135,
    key: *b"s135=\0\0\0",
    highest: 1,
    ..NO_ROW
};

const S136: Row = Row {
    number: 136,
    key: *b"s136=\0\0\0",
    highest: 1,
    ..NO_ROW
};

// Gives the row at a place of TPS100. The rows go by name, since an array of them would be laid down whole for each that is taken out of it.
#[tactic(auto, unfolding(crate::specs::Settings::rows100, figures::specs::Decimal::digits_nBy, figures::specs::Decimal::digits_of))]
#[inline(always)]
pub(crate) fn row_100(place: usize) -> Row
    ensures { result ≡ get_or rows100 place no_row }
{
    match place {
        0 => S30,
        1 => S32,
        2 => S34,
        3 => S40,
        4 => S41,
        5 => S44,
        6 => S49,
        7 => S50,
        8 => S70,
        9 => S71,
        10 => S73,
        11 => S76,
        12 => S80,
        13 => S81,
        14 => S95,
        15 => S102,
        16 => S103,
        17 => S135,
        18 => S136,
        _ => NO_ROW,
    }
}
