// A text shown with a caret under one of its bytes, put into a room as far as there is room.
ghost use Rattle.std.specs.Prelude.{◌≡◌, map};
ghost use Rattle.figures.specs.Rooms.{Fills};
ghost use Rattle.figures.specs.Pointing.{shown, caret_text};

use crate::rooms::Room;

// Gives a byte as it is shown: itself where it is graphic or a blank, otherwise a dot.
fn shown_as(b: u8) -> u8
    ensures { result ≡ shown b }
{
    match b {
        32..=126 => b,
        _ => b'.',
    }
}

impl<'a> Room<'a> {
    // Puts a text as it is shown.
    #[tactic(auto, using(crate::proofs::Putting::puts_nothing, crate::proofs::Putting::puts_within, crate::proofs::Putting::puts_more))]
    pub fn put_shown(&mut self, text: &[u8])
        ensures { Fills self.old (map shown text.now) self.new }
    {
        self.put(b""); // past the end, the place is the end
        for b in text {
            self.put(&[shown_as(*b)]);
        }
    }

    // Puts the line with a caret under the byte at the place.
    #[tactic(auto, using(crate::proofs::Putting::puts_nothing, crate::proofs::Putting::puts_within, crate::proofs::Putting::puts_more))]
    pub fn put_caret(&mut self, place: usize)
        ensures { Fills self.old (caret_text place) self.new }
    {
        self.put(b""); // past the end, the place is the end
        for _ in 0..place {
            self.put(b" ");
        }
        self.put(b"^\n");
    }
}
