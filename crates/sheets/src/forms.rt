// The two forms of a sheet: the second starts `form=2` and has the undo list after the first's lines. What the first lines of a sheet name.
ghost use Rattle.std.specs.Prelude.{◌≡◌};
ghost use Rattle.sheets.specs.Undo.{form_line};
ghost use Rattle.sheets.specs.Loading.{form_in};
ghost use Rattle.sheets.specs.Writing.{series_named};

use instrument::settings::Series;

#[derive(Clone, Copy, PartialEq, Eq)]
pub enum Form {
    One,
    Two,
}

// The longest sheet, of either form and series.
pub const SHEET_MOST: usize = 1864;

// Gives the line that names the form; the first has none.
pub(crate) fn form_line(form: Form) -> &'static [u8]
    ensures { result.now ≡ form_line form }
{
    match form {
        Form::One => b"",
        Form::Two => b"form=2\n",
    }
}

// Tells which form a sheet starts as.
pub fn form_in(sheet: &[u8]) -> Form
    ensures { result ≡ form_in sheet.now }
{
    if figures::starts(sheet, form_line(Form::Two)) {
        return Form::Two;
    }
    Form::One
}

// Tells which series a sheet of the form names; where it names none, a TPS100.
pub fn series_named(form: Form, sheet: &[u8]) -> Series
    ensures { result ≡ series_named form sheet.now }
{
    let at = form_line(form).len();
    if sheet.len() < at {
        return Series::Tps100;
    }
    if figures::starts(&sheet[at..], b"series=TPS300\n") {
        return Series::Tps300;
    }
    Series::Tps100
}
