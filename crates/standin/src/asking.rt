// What the arguments ask for.
use std::env::Env;
use streams::arguments::{argument, count};

// Whether reasons are told, and which argument names the file that the state is kept in and which what to start from.
#[derive(Clone, Copy)]
pub(crate) struct Asked {
    pub(crate) why: bool,
    pub(crate) keep: Option<usize>,
    pub(crate) name: Option<usize>,
}

// Reads the arguments, in any order; None asks for the usage. A name that starts with two hyphens is no file, but ./--NAME is.
pub(crate) fn ask<V: Env>(env: &V) -> Option<Asked> {
    let mut asked = Asked {
        why: false,
        keep: None,
        name: None,
    };
    let mut places = 1..count(env);
    while let Some(i) = places.next() {
        // No option is longer; of a longer argument the start is there.
        let mut word = [0u8; 7];
        let text = argument(env, i, &mut word).unwrap_or(b"");
        let why = matches!(text, b"--why");
        let keep = matches!(text, b"--keep");
        let option = word.starts_with(b"--");
        if why && !asked.why {
            asked.why = true;
        } else if keep && asked.keep.is_none() {
            asked.keep = Some(places.next()?);
        } else if !option && asked.name.is_none() {
            asked.name = Some(i);
        } else {
            return None;
        }
    }
    Some(asked)
}
