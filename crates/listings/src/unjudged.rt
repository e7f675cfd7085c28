// A block that was mended and is still to be judged.
ghost use Rattle.std.specs.Prelude.{◌≡◌};

use crate::edits::Edit;
use crate::walking::Walked;
use std::marker::Model;

// A block's mended bytes, from the start of the longest block there is, whether they read or not, with how many they are and the edits;
// bytes past those are noughts.
#[derive(Clone, Copy)]
pub struct Unjudged {
    pub(crate) bytes: [u8; 771],
    pub(crate) walked: Walked,
}

impl Model for Unjudged {
    ghost use Rattle.std.specs.Prelude.{◌≡◌, ◌≤◌, ◌++◌, length, take, drop, replicate};
    ghost use Rattle.listings.specs.Mending.{Mending};
    ghost use Rattle.listings.specs.Kept.{kept_long, given_back};

    ghost Value = { Mending };

    ghost view = { λ u. record { bytes = take u.walked.bytes u.bytes; edits = u.walked.edits } };

    ghost invariant = { λ u. (u.walked.bytes ≤ 771) × ((length u.bytes ≡ 771) × (drop u.walked.bytes u.bytes ≡ drop u.walked.bytes (replicate 771 0))) };

    ghost inverse = { λ m. record { bytes = m.bytes ++ drop (length m.bytes) (replicate 771 0); walked = record { bytes = length m.bytes; edits = m.edits } } };

    ghost inverse_ok = { λ u h i. record {
      bytes = given_back u.walked.bytes 771 u.bytes (replicate 771 0) h.0 h.1.0 h.1.1 i;
      walked = record { bytes = kept_long u.walked.bytes 771 u.bytes h.0 h.1.0 i; edits = u.walked.edits };
    } };
}

impl Unjudged {
    // Lends the mended bytes.
    pub fn bytes(&self) -> &[u8]
        ensures { result.now ≡ self.now.bytes }
    {
        &self.bytes[..self.walked.bytes]
    }

    // Lends the edits.
    pub fn edits(&self) -> &[Edit]
        ensures { result.now ≡ self.now.edits }
    {
        self.walked.edits.as_slice()
    }
}
