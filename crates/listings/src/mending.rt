// A block of a listing mended and judged, with its edits by value.
ghost use Rattle.std.specs.Prelude.{◌≡◌};
ghost use Rattle.listings.specs.Mending.{mended};
ghost use Rattle.listings.specs.Keeping.{MendsBy};

pub use crate::unjudged::Unjudged;
use crate::walking::{Walked, walk};
use blocks::answers::Refusal;
use blocks::judging::answer_of;
use units::kinds::Family;

// How many bytes a mended block has, and how many edits were made.
#[derive(Clone, Copy, PartialEq, Eq)]
pub struct Mended {
    pub bytes: usize,
    pub edits: usize,
}

// Mends the block at the start of s by value; what it gives is still to be judged.
pub fn mend_unjudged(s: &[u8]) -> Unjudged
    ensures { result ≡ mended s.now }
{
    let mut bytes = [0; 771];
    let walked = walk(s, &mut bytes);
    Unjudged { bytes, walked }
}

// Mends the block of the family at the start of s into the room, where so many places are lent for its edits. Of Refusal there are the reader's, told at a
// place of the mended bytes, Room with the bytes needed and NoPlace with the number of edits.
// It walks by itself: what `mend_unjudged` gives would be copied once more.
pub fn mend_by(s: &[u8], family: Family, places: usize, room: &mut [u8]) -> Result<Walked, Refusal>
    ensures { MendsBy family s.now places room.old result room.new }
{
    let mut bytes = [0; 771];
    let walked = walk(s, &mut bytes);
    let mended = &bytes[..walked.bytes];
    let count = walked.edits.as_slice().len();
    answer_of(mended, family)?;
    if room.len() < mended.len() {
        return Err(Refusal::Room(mended.len()));
    }
    if places < count {
        return Err(Refusal::NoPlace(count));
    }
    figures::lay(mended, room);
    Ok(walked)
}
