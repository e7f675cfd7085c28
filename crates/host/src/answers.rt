// An answer as one number: its own number in the high 32 bits, what it tells in the low ones.
ghost use Rattle.std.specs.Prelude.{◌≡◌, ◌≤◌};
ghost use Rattle.host.specs.Answers.{packed, bit_of, refused_told, reading_told, read_told, wrote_told, mended_told};

use blocks::answers::{Reading, Refusal, refusal_number, refusal_tells};
use listings::mending::Mended;

// Packs an answer: the number over what is told; what would be more than 2^32 - 1 is told as that.
pub(crate) fn pack(number: u64, told: usize) -> u64
    requires { number ≤ 99 }
    ensures { result ≡ packed number told }
{
    number * 4294967296 + (told as u64).min(4294967295)
}

fn refused(refusal: Refusal) -> u64
    ensures { result ≡ refused_told refusal }
{
    pack(refusal_number(refusal), refusal_tells(refusal))
}

fn bit(on: bool, weight: u64) -> u64
    ensures { result ≡ bit_of on weight }
{
    if on { weight } else { 0 }
}

// Gives what an accepted block tells, each part in its own bits.
fn accepted(reading: Reading) -> u64
    ensures { result ≡ reading_told reading }
{
    let used = reading.used as u64 % 65536;
    let words = reading.words as u64 % 256;
    used + words * 65536 + bit(reading.wide, 16777216) + bit(reading.crlf, 33554432)
}

// Gives the answer of a reading.
pub fn told_read(a: Result<Reading, Refusal>) -> u64
    ensures { result ≡ read_told a }
{
    match a {
        Err(refusal) => refused(refusal),
        Ok(reading) => accepted(reading),
    }
}

// Gives the answer of a writing.
pub fn told_wrote(w: Result<usize, Refusal>) -> u64
    ensures { result ≡ wrote_told w }
{
    match w {
        Err(refusal) => refused(refusal),
        Ok(n) => pack(0, n),
    }
}

// Gives the answer of a mending, with what it tells in its own bits.
pub fn told_mended(m: Result<Mended, Refusal>) -> u64
    ensures { result ≡ mended_told m }
{
    match m {
        Err(refusal) => refused(refusal),
        Ok(mended) => mended.bytes as u64 % 65536 + mended.edits as u64 % 65536 * 65536,
    }
}
