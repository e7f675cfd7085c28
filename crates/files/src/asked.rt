// What a program that reads a file of either family is asked for by its arguments.
ghost use Rattle.std.specs.Prelude.{◌≡◌};
ghost use Rattle.files.specs.Asked.{asked_by};

use figures::same;
use std::env::Env;
use streams::arguments::{argument, count};
use units::kinds::Family;

// Tells which family's file is asked for by the number of arguments, the program's own name counted, and the first of the others; None asks for the usage.
pub fn asked_by(count: usize, word: &[u8]) -> Option<Family>
    ensures { result ≡ asked_by count word.now }
{
    if count < 2 {
        return Some(Family::Station);
    }
    if count == 2 && same(word, b"level") {
        return Some(Family::Level);
    }
    None
}

// Reads the arguments; a first one with more bytes than `level` asks for nothing that there is.
pub fn ask(env: &impl Env) -> Option<Family> {
    let mut word = [0; 5];
    let word = argument(env, 1, &mut word).unwrap_or(b"");
    asked_by(count(env), word)
}
