// The instrument's port: bytes come in one at a time, a line is run at its CR, and its reply goes out at once.
#![tactic(auto)]

pub mod why;

ghost use Rattle.std.specs.Prelude.{◌≡◌, false};
ghost use Rattle.port.specs.Port.{quiet_port, kept_by, line_kept, Answers, Turns};

use lines::machine::{Told, line};

// The most that is kept of a line: enough for it to be judged as the whole line is.
pub const MOST: usize = 101;

// What came in of the line that isn't ended yet, and whether the byte before was a CR.
#[derive(Clone, Copy)]
pub struct Port {
    pub bytes: [u8; MOST],
    pub n: usize,
    pub after: bool,
}

// The port as a byte leaves it, and what the machine told of the line that it ended; where it ended none, no bytes of reply and no refusal.
#[derive(Clone, Copy)]
pub struct Turn {
    pub port: Port,
    pub told: Told,
}

// Gives a port at which nothing came in.
pub fn quiet() -> Port
    ensures { result ≡ quiet_port false }
{
    Port {
        bytes: [0; MOST],
        n: 0,
        after: false,
    }
}

// Keeps a byte of a line. Past the most that is kept a CR or LF still shows, in the last place.
fn keep(port: Port, b: u8) -> Port
    ensures { result ≡ kept_by port b }
{
    let mut next = Port {
        after: false,
        ..port
    };
    if port.n < MOST {
        next.bytes[port.n] = b;
        next.n += 1;
    } else if b == b'\r' || b == b'\n' {
        next.bytes[MOST - 1] = b;
    }
    next
}

// Lends the bytes of the line that are kept.
#[tactic(auto, using(crate::proofs::Hearing::held_take))]
pub(crate) fn held(port: &Port) -> &[u8]
    ensures { result.now ≡ line_kept port.now }
{
    &port.bytes[..port.n.min(MOST)]
}

// Runs what came in, with its CR.
fn answer(image: &mut [u8], port: &Port, room: &mut [u8]) -> Told
    ensures { Answers image.old port.now room.old result image.new room.new }
{
    let mut text = [0; MOST + 1];
    let kept = held(port);
    figures::lay(kept, &mut text);
    text[kept.len()] = b'\r';
    line(image, &text[..kept.len() + 1], room)
}

// Takes one byte at the port, with the state lent as an image and room for a reply.
pub fn hear(image: &mut [u8], port: Port, b: u8, room: &mut [u8]) -> Turn
    ensures { Turns image.old port b room.old result image.new room.new }
{
    if b == b'\r' {
        let told = answer(image, &port, room);
        let port = Port {
            after: true,
            ..quiet()
        };
        return Turn { port, told };
    }
    let port = if b == b'\n' && port.after {
        Port {
            after: false,
            ..port
        }
    } else {
        keep(port, b)
    };
    let told = Told {
        verdict: Ok(()),
        count: 0,
    };
    Turn { port, told }
}
