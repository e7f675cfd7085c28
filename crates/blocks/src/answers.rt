// What reading and writing a block answer.
ghost use Rattle.std.specs.Prelude.{◌≡◌};
ghost use Rattle.blocks.specs.Answers.{refusal_number, refusal_tells};

use words::reading::{Fault, fault_number};

// Why a block or a list is refused. Wrong is one word's fault, with the byte that it tells.
#[derive(Clone, Copy)]
pub enum Refusal {
    Empty,
    Wrong(Fault, usize),
    NoWord,
    NoEnd(usize),
    NoPlace(usize),
    Count,
    Record(usize),
    Room(usize),
}

// An accepted block: its width, its terminator, its words and the bytes it took.
#[derive(Clone, Copy)]
pub struct Reading {
    pub wide: bool,
    pub crlf: bool,
    pub words: usize,
    pub used: usize,
}

// Gives the number that the rules have for a refusal.
pub fn refusal_number(refusal: Refusal) -> u64
    ensures { result ≡ refusal_number refusal }
{
    match refusal {
        Refusal::Empty => 1,
        Refusal::Wrong(fault, _) => fault_number(fault),
        Refusal::NoWord => 3,
        Refusal::NoEnd(_) => 4,
        Refusal::NoPlace(_) => 11,
        Refusal::Count => 12,
        Refusal::Record(_) => 13,
        Refusal::Room(_) => 14,
    }
}

// Gives what a refusal tells: a place, a record's number, or the bytes needed.
pub fn refusal_tells(refusal: Refusal) -> usize
    ensures { result ≡ refusal_tells refusal }
{
    match refusal {
        Refusal::Empty => 0,
        Refusal::Wrong(_, at) => at,
        Refusal::NoWord => 0,
        Refusal::NoEnd(at) => at,
        Refusal::NoPlace(at) => at,
        Refusal::Count => 0,
        Refusal::Record(at) => at,
        Refusal::Room(bytes) => bytes,
    }
}
