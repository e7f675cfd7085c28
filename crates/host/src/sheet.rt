// The sheet's functions for a host in C.
ghost use Rattle.std.specs.Prelude.{◌≡◌};
ghost use Rattle.sheets.specs.declared.forms.Form.TheVariants.{One, Two};
ghost use Rattle.host.specs.Machine.{told_sheet, WritesSheetC, LoadsC, MovesC};

use crate::answers::pack;
use sheets::answers::{Answered, sheet_number, sheet_tells};
use sheets::forms::Form;
use sheets::loading::load;
use sheets::moving::move_from;
use sheets::writing::write;

// Gives the answer of a sheet.
pub fn told_sheet<A: Answered>(answer: A) -> u64
    ensures { result ≡ told_sheet (A.sheeted answer) }
{
    let answer = answer.sheeted();
    pack(sheet_number(answer), sheet_tells(answer))
}

// Writes the image's sheet in a form into the room. One function for both forms, so that the compiler joins it with what it calls.
fn write_told(form: Form, image: &[u8], sheet: &mut [u8]) -> u64
    ensures { WritesSheetC form image.now sheet.old result sheet.new }
{
    told_sheet(write(form, image, sheet))
}

// Writes the image's sheet of the first form into the room.
#[unsafe(no_mangle)]
pub extern "C" fn gsi_sheet_write(image: &[u8], sheet: &mut [u8]) -> u64
    ensures { WritesSheetC One image.now sheet.old result sheet.new }
{
    write_told(Form::One, image, sheet)
}

// Writes the image's sheet of the second form, with its undo list, into the room.
#[unsafe(no_mangle)]
pub extern "C" fn gsi_sheet_write_2(image: &[u8], sheet: &mut [u8]) -> u64
    ensures { WritesSheetC Two image.now sheet.old result sheet.new }
{
    write_told(Form::Two, image, sheet)
}

// Loads a sheet of either form into the image.
#[unsafe(no_mangle)]
pub extern "C" fn gsi_sheet_load(image: &mut [u8], sheet: &[u8]) -> u64
    ensures { LoadsC image.old sheet.now result image.new }
{
    told_sheet(load(image, sheet))
}

fn move_told(form: Form, sheet: &[u8], moved: &mut [u8]) -> u64
    ensures { MovesC form sheet.now moved.old result moved.new }
{
    told_sheet(move_from(form, sheet, moved))
}

// Moves a sheet of the first form to the second.
#[unsafe(no_mangle)]
pub extern "C" fn gsi_sheet_move(sheet: &[u8], moved: &mut [u8]) -> u64
    ensures { MovesC One sheet.now moved.old result moved.new }
{
    move_told(Form::One, sheet, moved)
}

// Moves a sheet of the second form back to the first.
#[unsafe(no_mangle)]
pub extern "C" fn gsi_sheet_back(sheet: &[u8], moved: &mut [u8]) -> u64
    ensures { MovesC Two sheet.now moved.old result moved.new }
{
    move_told(Form::Two, sheet, moved)
}
