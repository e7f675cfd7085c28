// What is told of a mended block: the byte of the input before which something was put, and what it was.
ghost use Rattle.std.specs.Prelude.{◌≡◌, ◌≤◌, ◌<◌, ◌++◌, [], length};
ghost use Rattle.listings.specs.Keeping.{edits_if};

use std::marker::Model;

// An edit's kinds: a dot, a blank or a CR was put. They are numbers, since a host in C lends the list and may leave anything in it.
pub const DOT: u32 = 1;

pub const BLANK: u32 = 2;

pub const CR: u32 = 3;

// The most edits that a block can need: a dot in each of its 32 words, its last blank and a CR.
pub const EDITS: usize = 34;

#[repr(C)]
#[derive(Clone, Copy, PartialEq, Eq)]
pub struct Edit {
    pub place: u32,
    pub kind: u32,
}

// A block's edits, first to last; those past the count are noughts.
#[derive(Clone, Copy)]
pub struct Edits {
    list: [Edit; EDITS],
    n: usize,
}

impl Model for Edits {
    ghost use Rattle.std.specs.Prelude.{◌≡◌, ◌≤◌, ◌++◌, List, length, take, drop};
    ghost use Rattle.listings.specs.Edits.{no_edits};
    ghost use Rattle.listings.specs.declared.edits.Edit.{Edit};
    ghost use Rattle.listings.specs.Kept.{kept_long, given_back};

    ghost Value = { List Edit };

    ghost view = { λ e. take e.n e.list };

    ghost invariant = { λ e. (e.n ≤ 34) × ((length e.list ≡ 34) × (drop e.n e.list ≡ drop e.n no_edits)) };

    ghost inverse = { λ es. record { list = es ++ drop (length es) no_edits; n = length es } };

    ghost inverse_ok = { λ e h i. record { list = given_back e.n 34 e.list no_edits h.0 h.1.0 h.1.1 i; n = kept_long e.n 34 e.list h.0 h.1.0 i } };
}

impl Edits {
    // Gives the list of no edits.
    pub(crate) fn none() -> Edits
        ensures { result ≡ [] }
    {
        Edits {
            list: [Edit { place: 0, kind: 0 }; EDITS],
            n: 0,
        }
    }

    // Adds an edit if it is due. One that isn't is kept as the noughts that stand past the count, so that this decides no branch.
    pub(crate) fn add_if(&mut self, due: bool, place: usize, kind: u32)
        requires { (length self.old < 34) × (place ≤ 800) }
        ensures { self.new ≡ self.old ++ edits_if due place kind }
    {
        self.list[self.n] = if due {
            Edit {
                place: place as u32,
                kind,
            }
        } else {
            Edit { place: 0, kind: 0 }
        };
        self.n += usize::from(due);
    }

    // Lends the edits.
    pub fn as_slice(&self) -> &[Edit]
        ensures { result.now ≡ self.now }
    {
        &self.list[..self.n]
    }
}
