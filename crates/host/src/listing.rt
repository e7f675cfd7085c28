// The functions for a host in C that mend a block of a printed listing.
ghost use Rattle.units.specs.declared.kinds.Family.TheVariants.{Station, Level};
ghost use Rattle.host.specs.Answers.{MendsC};

use crate::answers::told_mended;
use listings::edits::Edit;
use listings::lists::mend;
use units::kinds::Family;

// Mends the block of the family at the start of the input into the room, and tells its edits in the list.
fn mend_told(block: &[u8], family: Family, mended: &mut [u8], edits: &mut [Edit]) -> u64
    ensures { MendsC family block.now mended.old edits.old result mended.new edits.new }
{
    told_mended(mend(block, family, mended, edits))
}

// Mends the total station's block at the start of the input.
#[unsafe(no_mangle)]
pub extern "C" fn gsi_mend(block: &[u8], mended: &mut [u8], edits: &mut [Edit]) -> u64
    ensures { MendsC Station block.now mended.old edits.old result mended.new edits.new }
{
    mend_told(block, Family::Station, mended, edits)
}

// Mends the level's block at the start of the input.
#[unsafe(no_mangle)]
pub extern "C" fn gsi_mend_level(block: &[u8], mended: &mut [u8], edits: &mut [Edit]) -> u64
    ensures { MendsC Level block.now mended.old edits.old result mended.new edits.new }
{
    mend_told(block, Family::Level, mended, edits)
}
