// The stored values: constant rows of index and units, what a PUT leaves, and the word that GET answers.
ghost use Rattle.std.specs.Prelude.{◌≡◌, ◌+◌, ◌%◌};
ghost use Rattle.instrument.specs.Values.{stored_at, value_place, put_judged, put_kept, value_word, parts_right, get_word, widened, is_put};

use crate::keys::KEY;
use units::counts::angle_at;
use units::information::sign_byte;
use units::kinds::Family;
use words::reading::{Fault, Wrong, read_word};

pub const VALUES: usize = 11;

// A stored value: its index, first and last unit as they stand at position 6, and its key on a sheet, from the start of as many bytes as hold any key.
#[derive(Clone, Copy)]
pub struct Stored {
    pub index: u16,
    pub first: u8,
    pub last: u8,
    pub key: [u8; KEY],
}

// What a PUT leaves: unit, sign (0 or 1) and eight characters.
#[derive(Clone, Copy, PartialEq, Eq)]
pub struct Put {
    pub unit: u8,
    pub minus: u8,
    pub eight: [u8; 8],
}

// What is stored; None where nothing was ever put.
pub type Kept = Option<Put>;

// Text, angles of unit 2-4, lengths of unit 0 or 1.
const V11: Stored = Stored {
    index: 11,
    first: b'.',
    last: b'.',
    key: *b"v11=\0\0\0\0",
};

const V16: Stored = Stored {
    index: 16,
    first: b'.',
    last: b'.',
    key: *b"v16=\0\0\0\0",
};

const V21: Stored = Stored {
    index: 21,
    first: b'2',
    last: b'4',
    key: *b"v21=\0\0\0\0",
};

const V24: Stored = Stored {
    index: 24,
    first: b'2',
    last: b'4',
    key: *b"v24=\0\0\0\0",
};

const V34: Stored = Stored {
    index: 34,
    first: b'0',
    last: b'1',
    key: *b"v34=\0\0\0\0",
};

const V83: Stored = Stored {
    index: 83,
    first: b'0',
    last: b'1',
    key: *b"v83=\0\0\0\0",
};

const V84: Stored = Stored {
    index: 84,
    first: b'0',
    last: b'1',
    key: *b"v84=\0\0\0\0",
};

const V85: Stored = Stored {
    index: 85,
    first: b'0',
    last: b'1',
    key: *b"v85=\0\0\0\0",
};

const V86: Stored = Stored {
    index: 86,
    first: b'0',
    last: b'1',
    key: *b"v86=\0\0\0\0",
};

const V87: Stored = Stored {
    index: 87,
    first: b'0',
    last: b'1',
    key: *b"v87=\0\0\0\0",
};

const V88: Stored = Stored {
    index: 88,
    first: b'0',
    last: b'1',
    key: *b"v88=\0\0\0\0",
};

// Gives the row at a place; past the last it is a row of noughts.
#[tactic(auto, unfolding(crate::specs::Values::stored, figures::specs::Decimal::digits_nBy, figures::specs::Decimal::digits_of))]
pub fn stored_at(place: usize) -> Stored
    ensures { result ≡ stored_at place }
{
    match place {
        0 => V11,
        1 => V16,
        2 => V21,
        3 => V24,
        4 => V34,
        5 => V83,
        6 => V84,
        7 => V85,
        8 => V86,
        9 => V87,
        10 => V88,
        _ => Stored {
            index: 0,
            first: 0,
            last: 0,
            key: *b"v0=\0\0\0\0\0",
        },
    }
}

// Finds the place of the stored value of that index.
#[tactic(auto, using(crate::proofs::Kept::value_here, crate::proofs::Kept::value_further, crate::proofs::Kept::value_none))]
pub fn value_place(index: u16) -> Option<usize>
    ensures { result ≡ value_place index }
{
    for i in 0..VALUES {
        if stored_at(i).index == index {
            return Some(i);
        }
    }
    None
}

// Tells whether a value was put.
pub fn is_put(kept: Kept) -> bool
    ensures { result ≡ is_put kept }
{
    kept.is_some()
}

// Judges the word that is to be put there: dots at 3-5, a unit of the place, and otherwise the block rules.
pub fn put_judged(place: usize, word: [u8; 16]) -> Result<(), Wrong>
    ensures { result ≡ put_judged place word }
{
    let row = stored_at(place);
    if word[2] != b'.' {
        return Err(Wrong::new(Fault::Information, 2));
    }
    if word[3] != b'.' {
        return Err(Wrong::new(Fault::Information, 3));
    }
    if word[4] != b'.' {
        return Err(Wrong::new(Fault::Information, 4));
    }
    if word[5] < row.first || row.last < word[5] {
        return Err(Wrong::new(Fault::Information, 5));
    }
    read_word(&word, Family::Station, false)?;
    Ok(())
}

// Gives what the word leaves when it is put; a Kept as in a state, though never None.
pub fn put_kept(word: [u8; 16]) -> Kept
    ensures { result ≡ put_kept word }
{
    let eight = [
        word[7], word[8], word[9], word[10], word[11], word[12], word[13], word[14],
    ];
    Some(Put {
        unit: word[5],
        minus: u8::from(word[6] != b'+'),
        eight,
    })
}

fn figure(n: u16) -> u8
    ensures { result ≡ 48 + n % 10 }
{
    b'0' + (n % 10) as u8
}

// Makes the word of a value that was put, with that byte at position 5.
fn value_word(mark: u8, place: usize, put: Put) -> [u8; 16]
    ensures { result ≡ value_word mark place put.unit put.minus put.eight }
{
    let index = stored_at(place).index;
    let d = put.eight;
    [
        figure(index / 10),
        figure(index),
        b'.',
        b'.',
        mark,
        put.unit,
        sign_byte(put.minus),
        d[0],
        d[1],
        d[2],
        d[3],
        d[4],
        d[5],
        d[6],
        d[7],
        b' ',
    ]
}

// Tells whether a PUT can leave those parts at the place: unit, sign (0 or 1) and eight characters. An image asks it of each value and entry and a
// sheet of each line, where they lie, so no word is made of them.
pub fn parts_right(place: usize, parts: &[u8]) -> bool
    ensures { result ≡ parts_right place parts.now }
{
    if parts.len() != 10 || VALUES <= place {
        return false;
    }
    let row = stored_at(place);
    let unit = parts[0];
    let minus = parts[1];
    if 1 < minus || unit < row.first || row.last < unit {
        return false;
    }
    if unit == b'.' {
        return minus == 0 && figures::all_within(&parts[2..10], 33, 126);
    }
    // a length: any eight digits count
    if unit < b'2' {
        return figures::all_within(&parts[2..10], b'0', b'9');
    }
    figures::number(&parts[2..10]).is_some_and(|n| angle_at(unit, minus, n).is_some())
}

// Makes the word that GET answers; it is blanks where nothing was ever put.
pub fn get_word(place: usize, kept: Kept) -> [u8; 16]
    ensures { result ≡ get_word place kept }
{
    let Some(put) = kept else {
        return [b' '; 16];
    };
    let mark = if stored_at(place).first == b'.' {
        b'.'
    } else {
        b'1'
    };
    value_word(mark, place, put)
}

// Makes the word with eight zeros before its eight characters.
pub fn widen(w: [u8; 16]) -> [u8; 24]
    ensures { result ≡ widened w }
{
    [
        w[0], w[1], w[2], w[3], w[4], w[5], w[6], b'0', b'0', b'0', b'0', b'0', b'0', b'0', b'0',
        w[7], w[8], w[9], w[10], w[11], w[12], w[13], w[14], w[15],
    ]
}
