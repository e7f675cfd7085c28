// The list of edits that a caller lends.
ghost use Rattle.listings.specs.Outcome.{Mends};

use crate::edits::Edit;
use crate::mending::{Mended, mend_by};
use blocks::answers::Refusal;
use units::kinds::Family;

// Mends the block of the family at the start of s into the room, and tells its edits in the list. Refused, both are untouched; mended, what lies beyond is.
pub fn mend(s: &[u8], family: Family, room: &mut [u8], list: &mut [Edit]) -> Result<Mended, Refusal>
    ensures { Mends family s.now room.old list.old result room.new list.new }
{
    let walked = mend_by(s, family, list.len(), room)?;
    let edits = walked.edits.as_slice();
    // `copy_from_slice` would call memmove, which a host's C library need not have.
    for (i, edit) in edits.iter().enumerate() {
        list[i] = *edit;
    }
    Ok(Mended {
        bytes: walked.bytes,
        edits: edits.len(),
    })
}
