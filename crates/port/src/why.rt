// Why a line was refused, said for whoever makes the controller: the line's number, the refusal's, and where a PUT word is wrong.
ghost use Rattle.figures.specs.Rooms.{Puts, Fills};
ghost use Rattle.port.specs.Port.{line_kept};
ghost use Rattle.port.specs.Why.{number_text, rule_text, under_text, why_of};

use crate::{Port, held};
use figures::rooms::Room;
use lines::verdicts::{Refused, Verdict, verdict_number};
use words::reading::fault_number;

// Room enough for what is said of any line.
pub const ENOUGH: usize = 231;

fn put_number(out: &mut Room, number: u64, verdict: Verdict)
    ensures { Fills out.old (number_text number verdict) out.new }
{
    out.put(b"line=");
    out.put_decimal(number);
    out.put(b" refused=");
    out.put_decimal(verdict_number(verdict));
}

fn put_rule(out: &mut Room, verdict: Verdict)
    ensures { Fills out.old (rule_text verdict) out.new }
{
    match verdict {
        Err(Refused::Word(fault, byte)) => {
            out.put(b" which=");
            out.put_decimal(fault_number(fault));
            out.put(b" byte=");
            out.put_decimal(byte as u64);
        }
        _ => out.put(b""),
    }
}

fn put_under(out: &mut Room, verdict: Verdict)
    ensures { Fills out.old (under_text verdict) out.new }
{
    match verdict {
        Err(Refused::Word(_, byte)) => out.put_caret(byte),
        _ => out.put(b""),
    }
}

// Puts why the line that the port had kept was refused, with its number among the lines; nothing where it was accepted.
pub fn put_why(room: &mut [u8], number: u64, port: Port, verdict: Verdict) -> usize
    ensures { Puts room.old 0 (why_of number verdict (line_kept port)) result room.new }
{
    if verdict.is_ok() {
        return 0;
    }
    let mut out = Room::new(room);
    put_number(&mut out, number, verdict);
    put_rule(&mut out, verdict);
    out.put(b"\n");
    out.put_shown(held(&port));
    out.put(b"\n");
    put_under(&mut out, verdict);
    out.at
}
