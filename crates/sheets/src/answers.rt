// What writing, loading or moving a sheet answers.
ghost use Rattle.std.specs.Prelude.{◌≡◌};
ghost use Rattle.sheets.specs.Answers.{Sheeted, refusal_number, refusal_tells, sheet_number, sheet_tells, told_of_load};

// Why a sheet isn't written, loaded or moved. Wrong has the start of the first wrong, missing or surplus line; Standing, where undo entries stand in the way of
// the first form, that of the `undo=` line.
#[derive(Clone, Copy)]
pub enum SheetRefusal {
    NoState,
    Room,
    Wrong(usize),
    Standing(usize),
}

// What writing or moving a sheet answers: how many bytes were written.
pub type Sheeted = Result<usize, SheetRefusal>;

impl SheetRefusal {
    // Gives the number that document 01 has for it.
    pub fn number(self) -> u64
        ensures { result ≡ refusal_number self }
    {
        match self {
            SheetRefusal::NoState => 31,
            SheetRefusal::Room => 30,
            SheetRefusal::Wrong(_) => 40,
            SheetRefusal::Standing(_) => 41,
        }
    }

    // Gives the start of the line that is in the way, 0 where none is.
    pub fn tells(self) -> usize
        ensures { result ≡ refusal_tells self }
    {
        match self {
            SheetRefusal::Wrong(at) | SheetRefusal::Standing(at) => at,
            _ => 0,
        }
    }
}

// Gives the answer of a load as those of writing and moving are: a sheet that is loaded tells 0.
pub fn told_of_load(answer: Result<(), SheetRefusal>) -> Sheeted
    ensures { result ≡ told_of_load answer }
{
    match answer {
        Ok(()) => Ok(0),
        Err(refusal) => Err(refusal),
    }
}

// What is answered of a sheet, whatever was done with it.
pub trait Answered {
    ghost sheeted: { Self → Sheeted };

    fn sheeted(self) -> Sheeted
        ensures { result ≡ sheeted self };
}

impl Answered for Sheeted {
    ghost sheeted = { λ answer. answer };

    fn sheeted(self) -> Sheeted {
        self
    }
}

impl Answered for Result<(), SheetRefusal> {
    ghost sheeted = { told_of_load };

    fn sheeted(self) -> Sheeted {
        told_of_load(self)
    }
}

// Gives the number of an answer: that of the refusal, otherwise 0.
pub fn sheet_number<A: Answered>(answer: A) -> u64
    ensures { result ≡ sheet_number (A.sheeted answer) }
{
    match answer.sheeted() {
        Ok(_) => 0,
        Err(refusal) => refusal.number(),
    }
}

// Gives what an answer tells: the bytes written, or what the refusal tells.
pub fn sheet_tells<A: Answered>(answer: A) -> usize
    ensures { result ≡ sheet_tells (A.sheeted answer) }
{
    match answer.sheeted() {
        Ok(n) => n,
        Err(refusal) => refusal.tells(),
    }
}
