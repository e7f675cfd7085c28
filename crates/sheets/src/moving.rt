// A sheet moved from one form to the other: loaded into an image of its own, and written from it.
ghost use Rattle.std.specs.Prelude.{◌≡◌, true, length};
ghost use Rattle.state.specs.Image.{image_n};
ghost use Rattle.sheets.specs.Loading.{loading_as};
ghost use Rattle.sheets.specs.Writing.{other_form, Leaves, moved_by, MovesSheet};
ghost use Rattle.sheets.specs.Keeping.{is_of};

use crate::answers::{SheetRefusal, Sheeted};
use crate::forms::{Form, form_in, form_line, series_named};
use crate::loading::load;
use crate::writing::write;
use instrument::settings::Series;
use state::image::{IMAGE_100, IMAGE_300, count_in};
use state::laying::put_factory;

// The longest sheet of the first form.
const FIRST_MOST: usize = 441;

fn other_form(form: Form) -> Form
    ensures { result ≡ other_form form }
{
    match form {
        Form::One => Form::Two,
        Form::Two => Form::One,
    }
}

// Tells whether a sheet starts as those of the form do, and not as those of the other.
fn is_of(form: Form, sheet: &[u8]) -> bool
    ensures { result ≡ is_of form sheet.now }
{
    form_in(sheet) == form
}

// Moves a sheet of the form and series to the other form, by way of an image of that series.
fn move_by(form: Form, series: Series, image: &mut [u8], sheet: &[u8], room: &mut [u8]) -> Sheeted
    requires { (length image.old ≡ image_n series) × (is_of form sheet.now ≡ true) }
    ensures { Leaves (moved_by form series room.old (loading_as form series sheet.now)) result room.new }
{
    put_factory(series, image);
    load(image, sheet)?;
    if count_in(series, image) == 0 {
        return write(other_form(form), image, room);
    }
    // Where the `undo=` line starts: after as many bytes as the first form has.
    let mut lines = [0; FIRST_MOST];
    let n = write(Form::One, image, &mut lines)?;
    Err(SheetRefusal::Standing(form_line(Form::Two).len() + n))
}

// Moves a sheet, of either series, from the form to the other: it takes exactly the sheets of that form. Refused, the room is as it was; room beyond what is
// written is untouched.
pub fn move_from(form: Form, sheet: &[u8], room: &mut [u8]) -> Sheeted
    ensures { MovesSheet form sheet.now room.old result room.new }
{
    if !is_of(form, sheet) {
        return Err(SheetRefusal::Wrong(0));
    }
    match series_named(form, sheet) {
        Series::Tps100 => {
            let mut image = [0; IMAGE_100];
            move_by(form, Series::Tps100, &mut image, sheet, room)
        }
        Series::Tps300 => {
            let mut image = [0; IMAGE_300];
            move_by(form, Series::Tps300, &mut image, sheet, room)
        }
    }
}
