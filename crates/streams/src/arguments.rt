// The program's arguments as bytes, which need not be text.
ghost use Rattle.std.specs.Prelude.{◌≤◌, length, IfSome};

use std::env::{Env, FillError};

// Tells how many arguments there are, the program's own name among them.
pub fn count<E: Env>(env: &E) -> usize {
    (0..usize::MAX)
        .find(|i| matches!(env.arg(*i, &mut []), Err(FillError::NotPresent)))
        .unwrap_or(usize::MAX)
}

// Puts an argument at the start of the room, and gives it; None where it is missing or has no room.
pub fn argument<'a, E: Env>(env: &E, i: usize, room: &'a mut [u8]) -> Option<&'a [u8]>
    ensures in_bounds { IfSome result (λ word. length word.now ≤ length room.old) }
{
    let n = env.arg(i, room).ok()?;
    Some(&room[..n])
}
