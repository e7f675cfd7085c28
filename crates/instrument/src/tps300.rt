// The settings of a TPS300/700, a constant row for each: document 000, CONF list from 41 to 171.
ghost use Rattle.std.specs.Prelude.{◌≡◌, get_or};
ghost use Rattle.instrument.specs.Settings.{rows300, no_row};

use crate::settings::{NO_ROW, Row};

// Where 73 stands among them, which says how a reply ends, and 137, which says how wide its words are; what uses a place proves it.
pub const END_300: usize = 9;

pub const WIDE_300: usize = 25;

// The modes of 161 are 0, 1, 5, 6, 7, 9 and 10.
const MODES: [u8; 4] = [2, 3, 4, 8];

const T41: Row = Row {
    number: 41,
    key: *b"s41=\0\0\0\0",
    highest: 4,
    ..NO_ROW
};

const T42: Row = Row {
    number: 42,
    key: *b"s42=\0\0\0\0",
    highest: 1,
    ..NO_ROW
};

const T43: Row = Row {
    number: 43,
    key: *b"s43=\0\0\0\0",
    highest: 6,
    ..NO_ROW
};

const T50: Row = Row {
    number: 50,
    key: *b"s50=\0\0\0\0",
    highest: 4,
    ..NO_ROW
};

const T51: Row = Row {
    number: 51,
    key: *b"s51=\0\0\0\0",
    highest: 4,
    ..NO_ROW
};

const T55: Row = Row {
    number: 55,
    key: *b"s55=\0\0\0\0",
    lowest: 1,
    highest: 10,
    factory: 1,
    ..NO_ROW
};

const T56: Row = Row {
    number: 56,
    key: *b"s56=\0\0\0\0",
    lowest: 1,
    highest: 10,
    factory: 1,
    ..NO_ROW
};

const T70: Row = Row {
    number: 70,
    key: *b"s70=\0\0\0\0",
    highest: 6,
    ..NO_ROW
};

const T71: Row = Row {
    number: 71,
    key: *b"s71=\0\0\0\0",
    highest: 2,
    ..NO_ROW
};

const T73: Row = Row {
    number: 73,
    key: *b"s73=\0\0\0\0",
    highest: 1,
    ..NO_ROW
};

const T75: Row = Row {
    number: 75,
    key: *b"s75=\0\0\0\0",
    highest: 1,
    ..NO_ROW
};

const T76: Row = Row {
    number: 76,
    key: *b"s76=\0\0\0\0",
    highest: 1,
    ..NO_ROW
};

const T78: Row = Row {
    number: 78,
    key: *b"s78=\0\0\0\0",
    highest: 50,
    ..NO_ROW
};

const T90: Row = Row {
    number: 90,
    key: *b"s90=\0\0\0\0",
    highest: 10,
    asked: true,
    ..NO_ROW
};

const T91: Row = Row {
    number: 91,
    key: *b"s91=\0\0\0\0",
    highest: 100,
    asked: true,
    ..NO_ROW
};

const T95: Row = Row {
    number: 95,
    key: *b"s95=\0\0\0\0",
    highest: 1,
    ..NO_ROW
};

const T102: Row = Row {
    number: 102,
    key: *b"s102=\0\0\0",
    highest: 1,
    ..NO_ROW
};

const T103: Row = Row {
    number: 103,
    key: *b"s103=\0\0\0",
    highest: 1,
    ..NO_ROW
};

const T104: Row = Row {
    number: 104,
    key: *b"s104=\0\0\0",
    highest: 100,
    ..NO_ROW
};

const T105: Row = Row {
    number: 105,
    key: *b"s105=\0\0\0",
    highest: 100,
    ..NO_ROW
};

const T106: Row = Row {
    number: 106,
    key: *b"s106=\0\0\0",
    highest: 1,
    ..NO_ROW
};

const T120: Row = Row {
    number: 120,
    key: *b"s120=\0\0\0",
    highest: 1,
    ..NO_ROW
};

const T122: Row = Row {
    number: 122,
    key: *b"s122=\0\0\0",
    highest: 1,
    asked: true,
    ..NO_ROW
};

const T135: Row = Row {
    number: 135,
    key: *b"s135=\0\0\0",
    highest: 8,
    ..NO_ROW
};

const T136: Row = Row {
    number: 136,
    key: *b"s136=\0\0\0",
    highest: 127,
    ..NO_ROW
};

const T137: Row = Row {
    number: 137,
    key: *b"s137=\0\0\0",
    highest: 1,
    ..NO_ROW
};

const T160: Row = Row {
    number: 160,
    key: *b"s160=\0\0\0",
    highest: 1,
    asked: true,
    ..NO_ROW
};

const T161: Row = Row {
    number: 161,
    key: *b"s161=\0\0\0",
    highest: 10,
    gaps: MODES,
    ..NO_ROW
};

const T170: Row = Row {
    number: 170,
    key: *b"s170=\0\0\0",
    highest: 1,
    asked: true,
    ..NO_ROW
};

const T171: Row = Row {
    number: 171,
    key: *b"s171=\0\0\0",
    highest: 1,
    ..NO_ROW
};

// Gives the row at a place of TPS300.
#[tactic(auto, unfolding(crate::specs::Settings::rows300, figures::specs::Decimal::digits_nBy, figures::specs::Decimal::digits_of))]
#[inline(always)]
pub(crate) fn row_300(place: usize) -> Row
    ensures { result ≡ get_or rows300 place no_row }
{
    match place {
        0 => T41,
        1 => T42,
        2 => T43,
        3 => T50,
        4 => T51,
        5 => T55,
        6 => T56,
        7 => T70,
        8 => T71,
        9 => T73,
        10 => T75,
        11 => T76,
        12 => T78,
        13 => T90,
        14 => T91,
        15 => T95,
        16 => T102,
        17 => T103,
        18 => T104,
        19 => T105,
        20 => T106,
        21 => T120,
        22 => T122,
        23 => T135,
        24 => T136,
        25 => T137,
        26 => T160,
        27 => T161,
        28 => T170,
        29 => T171,
        _ => NO_ROW,
    }
}
