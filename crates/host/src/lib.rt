// The functions that a host in C links. Each answers its number * 2^32 + what it tells, except the two that tell an image's length.
#![tactic(auto)]

pub mod answers;
pub mod listing;
pub mod machine;
pub mod sheet;

ghost use Rattle.units.specs.declared.kinds.Family.TheVariants.{Station, Level};
ghost use Rattle.host.specs.Answers.{ReadsC, WritesC};

use crate::answers::{told_read, told_wrote};
use blocks::lists::{read, write};
use units::kinds::Family;
use words::records::Word;

// Reads the block of the family at the start of the input into the list. One function for both readers, so that the compiler joins it with what it calls.
fn read_told(block: &[u8], family: Family, list: &mut [Word]) -> u64
    ensures { ReadsC family block.now list.old result list.new }
{
    told_read(read(block, family, list))
}

// Writes the list's records as one block of the family; wide and crlf: 0 is no, any other number is yes. One function for both writers likewise.
fn write_told(list: &[Word], family: Family, wide: u64, crlf: u64, block: &mut [u8]) -> u64
    ensures { WritesC family list.now wide crlf block.old result block.new }
{
    told_wrote(write(list, family, wide != 0, crlf != 0, block))
}

// Reads the total station's block at the start of the input into the list.
#[unsafe(no_mangle)]
pub extern "C" fn gsi_read(block: &[u8], list: &mut [Word]) -> u64
    ensures { ReadsC Station block.now list.old result list.new }
{
    read_told(block, Family::Station, list)
}

// Writes the list's records as one block of a total station; wide and crlf: 0 is no, any other number is yes.
#[unsafe(no_mangle)]
pub extern "C" fn gsi_write(list: &[Word], wide: u64, crlf: u64, block: &mut [u8]) -> u64
    ensures { WritesC Station list.now wide crlf block.old result block.new }
{
    write_told(list, Family::Station, wide, crlf, block)
}

// Reads the level's block at the start of the input into the list.
#[unsafe(no_mangle)]
pub extern "C" fn gsi_read_level(block: &[u8], list: &mut [Word]) -> u64
    ensures { ReadsC Level block.now list.old result list.new }
{
    read_told(block, Family::Level, list)
}

// Writes the list's records as one block of a level; wide and crlf: 0 is no, any other number is yes.
#[unsafe(no_mangle)]
pub extern "C" fn gsi_write_level(list: &[Word], wide: u64, crlf: u64, block: &mut [u8]) -> u64
    ensures { WritesC Level list.now wide crlf block.old result block.new }
{
    write_told(list, Family::Level, wide, crlf, block)
}
